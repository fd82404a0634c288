// Steps of a scan; plans and counts.
use crate::common::{four_steps, pair_answer, planned};
use filter::Filter;
use inputs::{ramp, where_cell};
use operator::{Answer, Operator};
use refusal::Refusal;
use scan::Scan;
use std::process::Abort;
use std::test::Fail;

#[test]
fn scan_steps_in_order(rt: HostRuntime) -> Result<(), Fail> {
    let mut scan = Scan::new(ramp(-200, 175, 3)?);
    let rows = [
        pair_answer(0, -200),
        pair_answer(1, -25),
        pair_answer(2, 150),
        Answer::End,
    ];
    assert_eq!(rt; four_steps(&mut scan), rows);
    assert_eq!(rt; four_steps(&mut scan), [Answer::End; 4]);
    scan.rewind();
    assert_eq!(rt; four_steps(&mut scan), rows);
    Ok(())
}

// The length of the plan, the width, the operators and the keepers.
fn counts<O: Operator>(tree: &O) -> [usize; 4] {
    [
        tree.plan_size(),
        tree.width(),
        tree.operators(),
        tree.keepers(),
    ]
}

// Of a scan of 258 rows.
fn scan_plan_is<O: Operator>(rt: &impl Abort, tree: &O) {
    let short = (Err(Refusal::Short), [9; 12]);
    let plan = (Ok(4), [1, 2, 1, 2, 9, 9, 9, 9, 9, 9, 9, 9]);
    let found = [
        planned(tree, 0) == short,
        planned(tree, 3) == short,
        planned(tree, 4) == plan,
        planned(tree, 12) == plan,
        counts(tree) == [4, 2, 1, 0],
        tree.refetch(&[]) == 0,
        tree.refetch_of(&[0, 2, 0, 1]) == 0,
    ];
    assert_eq!(rt; found, [true; 7]);
}

// Of a filter over a scan of 3 rows.
fn filter_plan_is<O: Operator>(rt: &impl Abort, tree: &O) {
    let short = (Err(Refusal::Short), [9; 12]);
    let plan = (Ok(11), [2, 1, 60, 255, 255, 255, 56, 1, 2, 0, 3, 9]);
    let found = [
        planned(tree, 6) == short,
        planned(tree, 10) == short,
        planned(tree, 11) == plan,
        planned(tree, 12) == plan,
        counts(tree) == [11, 2, 2, 0],
        tree.refetch(&[]) == 0,
        tree.refetch_of(&[0, 4, 0, 2, 0, 1]) == 0,
    ];
    assert_eq!(rt; found, [true; 7]);
}

#[test]
fn scan_of_no_rows(rt: HostRuntime) -> Result<(), Fail> {
    let mut scan = Scan::new(ramp(7, 7, 0)?);
    assert_eq!(rt; four_steps(&mut scan), [Answer::End; 4]);
    Ok(())
}

#[test]
fn scan_plan(rt: HostRuntime) -> Result<(), Fail> {
    scan_plan_is(&rt, &Scan::new(ramp(0, 1, 258)?));
    Ok(())
}

#[test]
fn filter_plan(rt: HostRuntime) -> Result<(), Fail> {
    let scan = Scan::new(ramp(0, 1, 3)?);
    filter_plan_is(&rt, &Filter::new(scan, where_cell(1, b'<', -200)));
    Ok(())
}
