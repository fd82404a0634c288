// Filters: which rows pass, and the faults.
use crate::common::four_steps;
use codec::Row;
use filter::{Criterion, Filter};
use inputs::{ramp, where_cell};
use operator::{Answer, Operator};
use refusal::Refusal;
use scan::Scan;
use source::Image;
use std::test::Fail;

// Three rows of width 1.
const EXTREMES: [u8; 16] = [
    1, 0, 3, 1, 0x80, 0, 0, 0, 0, 0, 0, 0, 0x7F, 0xFF, 0xFF, 0xFF,
];

const LEAST: Answer = Answer::Row(Row {
    cells: [i32::MIN, 0, 0, 0, 0, 0, 0, 0],
});

const ZERO: Answer = Answer::Row(Row {
    cells: [0, 0, 0, 0, 0, 0, 0, 0],
});

const MOST: Answer = Answer::Row(Row {
    cells: [i32::MAX, 0, 0, 0, 0, 0, 0, 0],
});

const NONE_PASSES: [Answer; 4] = [Answer::Busy, Answer::Busy, Answer::Busy, Answer::End];

const ALL_PASS: [Answer; 4] = [LEAST, ZERO, MOST, Answer::End];

// The steps of a filter over the three rows.
fn answers(wanted: Criterion) -> Result<[Answer; 4], Refusal> {
    let image = Image::new(&EXTREMES)?;
    Ok(four_steps(&mut Filter::new(Scan::new(image), wanted)))
}

// The fault of two filters over rows of width 2: the child's cell and condition, then those of its parent, number 5.
fn fault(filters: [u8; 4]) -> Result<(), Refusal> {
    let [inner_cell, inner_condition, cell, condition] = filters;
    let scan = Scan::new(ramp(0, 1, 3)?);
    let inner = Filter::new(scan, where_cell(inner_cell, inner_condition, 0));
    Filter::new(inner, where_cell(cell, condition, 0)).check(5)
}

#[test]
fn conditions_at_the_extremes(rt: HostRuntime) -> Result<(), Fail> {
    let cases = [
        (
            b'=',
            i32::MIN,
            [LEAST, Answer::Busy, Answer::Busy, Answer::End],
        ),
        (b'<', i32::MIN, NONE_PASSES),
        (b'>', i32::MIN, [Answer::Busy, ZERO, MOST, Answer::End]),
        (b'=', 0, [Answer::Busy, ZERO, Answer::Busy, Answer::End]),
        (b'<', 0, [LEAST, Answer::Busy, Answer::Busy, Answer::End]),
        (b'>', 0, [Answer::Busy, Answer::Busy, MOST, Answer::End]),
        (
            b'=',
            i32::MAX,
            [Answer::Busy, Answer::Busy, MOST, Answer::End],
        ),
        (b'<', i32::MAX, [LEAST, ZERO, Answer::Busy, Answer::End]),
        (b'>', i32::MAX, NONE_PASSES),
    ];
    for (condition, constant, steps) in cases {
        assert_eq!(rt; answers(where_cell(0, condition, constant))?, steps);
    }
    Ok(())
}

#[test]
fn unknown_conditions_and_missing_cells(rt: HostRuntime) -> Result<(), Fail> {
    // an unknown condition passes nothing, a missing cell reads 0
    let cases = [
        (0, 0, NONE_PASSES),
        (0, b';', NONE_PASSES),
        (0, b'?', NONE_PASSES),
        (0, 255, NONE_PASSES),
        (1, b'=', ALL_PASS),
        (7, b'=', ALL_PASS),
        (8, b'=', ALL_PASS),
        (8, b'<', NONE_PASSES),
        (8, b'>', NONE_PASSES),
        (255, b'=', ALL_PASS),
    ];
    for (cell, condition, steps) in cases {
        assert_eq!(rt; answers(where_cell(cell, condition, 0))?, steps);
    }
    Ok(())
}

#[test]
fn faults_of_filters(rt: HostRuntime) {
    let cases = [
        ([0, b'=', 1, b'<'], None),
        ([1, b'>', 0, b'='], None),
        ([0, b'=', 2, b'<'], Some(Refusal::Misfit(5))),
        ([0, b'=', 255, b'?'], Some(Refusal::Misfit(5))),
        ([0, b'=', 1, b';'], Some(Refusal::BadCondition(5))),
        ([0, b'=', 1, b'?'], Some(Refusal::BadCondition(5))),
        ([2, b'=', 1, b'<'], Some(Refusal::Misfit(6))),
        ([2, b'=', 2, b'<'], Some(Refusal::Misfit(6))),
        ([2, b'?', 1, b'?'], Some(Refusal::Misfit(6))),
        ([1, 0, 2, b'<'], Some(Refusal::BadCondition(6))),
        ([1, 255, 1, b'?'], Some(Refusal::BadCondition(6))),
    ];
    for (filters, first) in cases {
        assert_eq!(rt; fault(filters).err(), first);
    }
}

#[test]
fn numbers_and_words_of_faults(rt: HostRuntime) {
    let (misfit, unknown) = (Refusal::Misfit(6), Refusal::BadCondition(6));
    let found = [
        misfit.number() == 1,
        misfit.word() == "misfit",
        unknown.number() == 3,
        unknown.word() == "bad condition",
    ];
    assert_eq!(rt; found, [true; 4]);
}
