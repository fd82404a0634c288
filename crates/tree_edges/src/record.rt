// Records: what is saved, and what a load takes up.
use crate::common::{four_steps, pair_answer, saved, taken_up};
use filter::Filter;
use inputs::{ramp, where_cell};
use operator::{Answer, Operator};
use refusal::Refusal;
use scan::Scan;
use source::Ramp;
use std::process::Abort;
use std::test::Fail;

// Its rows are (0, -200), (1, -25) and (2, 150).
fn three_rows() -> Result<Scan<Ramp>, Refusal> {
    Ok(Scan::new(ramp(-200, 175, 3)?))
}

// The first two of the three rows.
fn below_zero() -> Result<Filter<Scan<Ramp>>, Refusal> {
    Ok(Filter::new(three_rows()?, where_cell(1, b'<', 0)))
}

// Of a scan of three rows.
fn scan_record_is<O: Operator>(rt: &impl Abort, scan: &mut O) {
    let short = (Err(Refusal::Short), [9; 12]);
    let first = (Ok(4), [0, 2, 0, 0, 9, 9, 9, 9, 9, 9, 9, 9]);
    let last = (Ok(4), [0, 2, 0, 3, 9, 9, 9, 9, 9, 9, 9, 9]);
    let before = [
        saved(scan, 0) == short,
        saved(scan, 3) == short,
        saved(scan, 4) == first,
        saved(scan, 12) == first,
    ];
    four_steps(scan);
    let after = [
        saved(scan, 4) == last,
        scan.size(&[]) == 4,
        taken_up(scan, &[0, 2, 0, 2]) == (Ok(()), pair_answer(2, 150)),
        taken_up(scan, &[0, 2, 0, 3]) == (Ok(()), Answer::End),
    ];
    assert_eq!(rt; [before, after], [[true; 4]; 2]);
}

// Of the filter over it, after one step.
fn filter_record_is<O: Operator>(rt: &impl Abort, tree: &mut O) {
    let short = (Err(Refusal::Short), [9; 12]);
    let record = (Ok(6), [0, 4, 0, 2, 0, 1, 9, 9, 9, 9, 9, 9]);
    tree.step();
    let found = [
        saved(tree, 1) == short,
        saved(tree, 5) == short,
        saved(tree, 6) == record,
        saved(tree, 12) == record,
        tree.size(&[]) == 6,
        taken_up(tree, &[0, 4, 0, 2, 0, 2]) == (Ok(()), Answer::Busy),
        taken_up(tree, &[0, 4, 0, 2, 0, 3]) == (Ok(()), Answer::End),
    ];
    assert_eq!(rt; found, [true; 7]);
}

// Each refused record leaves the tree at its beginning.
fn start_over<O: Operator>(rt: &impl Abort, tree: &mut O, records: &[&[u8]]) {
    let refused = (Err(Refusal::Unreadable), pair_answer(0, -200));
    for record in records {
        assert_eq!(rt; taken_up(tree, record), refused);
    }
    assert_eq!(rt;
        [Refusal::Short.number(), Refusal::Unreadable.number()],
        [6, 10]
    );
}

// The other tree steps as the one whose record it loads.
fn goes_on<O: Operator>(rt: &impl Abort, tree: &mut O, other: &mut O) {
    for _ in 0..5 {
        let mut record = [0; 6];
        let answers = (tree.save(&[], &mut record), other.load(&record));
        assert_eq!(rt; (answers, other.step()), ((Ok(6), Ok(())), tree.step()));
    }
}

#[test]
fn scan_record(rt: HostRuntime) -> Result<(), Fail> {
    scan_record_is(&rt, &mut three_rows()?);
    Ok(())
}

#[test]
fn filter_record(rt: HostRuntime) -> Result<(), Fail> {
    filter_record_is(&rt, &mut below_zero()?);
    Ok(())
}

#[test]
fn filter_goes_on_from_its_record(rt: HostRuntime) -> Result<(), Fail> {
    goes_on(&rt, &mut below_zero()?, &mut below_zero()?);
    Ok(())
}

#[test]
fn position_in_two_bytes(rt: HostRuntime) -> Result<(), Fail> {
    let mut scan = Scan::new(ramp(0, -1, 300)?);
    assert_eq!(rt;
        taken_up(&mut scan, &[0, 2, 1, 43]),
        (Ok(()), pair_answer(299, -299))
    );
    Ok(())
}

#[test]
fn scan_records_refused(rt: HostRuntime) -> Result<(), Fail> {
    let records: [&[u8]; 11] = [
        &[0, 2, 0, 4],
        &[0, 2, 1, 0],
        &[],
        &[0],
        &[0, 0],
        &[0, 2],
        &[0, 2, 0],
        &[0, 2, 0, 1, 0],
        &[0, 3, 0, 1],
        &[1, 2, 0, 1],
        &[0, 3, 0, 1, 0],
    ];
    start_over(&rt, &mut three_rows()?, &records);
    Ok(())
}

#[test]
fn filter_records_refused(rt: HostRuntime) -> Result<(), Fail> {
    let records: [&[u8]; 14] = [
        &[0, 3, 0, 2, 0, 1],
        &[0, 5, 0, 2, 0, 1],
        &[1, 4, 0, 2, 0, 1],
        &[0, 4, 0, 1, 0, 1],
        &[0, 4, 0, 3, 0, 1],
        &[0, 4, 1, 2, 0, 1],
        &[0, 4, 0, 2, 0, 4],
        &[],
        &[0],
        &[0, 0],
        &[0, 2, 0, 1],
        &[0, 4, 0, 2, 0],
        &[0, 4, 0, 2, 0, 1, 0],
        &[0, 5, 0, 2, 0, 1, 0],
    ];
    start_over(&rt, &mut below_zero()?, &records);
    Ok(())
}
