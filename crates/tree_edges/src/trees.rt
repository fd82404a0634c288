// Deep trees, and runs to the end.
use crate::common::pair_answer;
use codec::Row;
use filter::Filter;
use inputs::{ramp, where_cell};
use operator::{Answer, Operator};
use run::{Failure, Run, run_to_end};
use scan::Scan;
use std::alloc::Global;
use std::test::Fail;

// The operators of a tree, what a run one step after its beginning answers, and the step after the run.
#[derive(Drop)]
struct Outcome {
    operators: usize,
    result: Result<Run, Failure>,
    after: Answer,
}

fn outcome_of<O: Operator + Drop>(heap: Global, mut tree: O) -> Outcome {
    tree.step();
    Outcome {
        operators: tree.operators(),
        result: run_to_end(heap, &mut tree),
        after: tree.step(),
    }
}

// Whether a tree ran to its end, with two rows.
fn ran(outcome: &Outcome, rows: [[i32; 8]; 2], steps: usize) -> bool {
    let Ok(run) = &outcome.result else {
        return false;
    };
    let rows = rows.map(|cells| Row { cells });
    run.rows.as_slice() == rows.as_slice() && run.steps == steps && outcome.after == Answer::End
}

// Whether a tree was refused as outsize, and stayed where the first step left it.
fn refused(outcome: &Outcome) -> bool {
    let Err(Failure::Refused(refusal)) = &outcome.result else {
        return false;
    };
    refusal.number() == 4
        && refusal.word() == "outsize"
        && outcome.operators == 17
        && outcome.after == pair_answer(1, -25)
}

// A filter that passes cells above -200.
fn above<C: Operator>(child: C) -> Filter<C> {
    Filter::new(child, where_cell(1, b'>', -200))
}

// Three of them.
fn three<C: Operator>(child: C) -> Filter<Filter<Filter<C>>> {
    above(above(above(child)))
}

#[test]
fn run_of_a_filter(rt: HostRuntime) -> Result<(), Fail> {
    let tree = Filter::new(Scan::new(ramp(-200, 175, 4)?), where_cell(1, b'<', 150));
    let rows = [[0, -200, 0, 0, 0, 0, 0, 0], [1, -25, 0, 0, 0, 0, 0, 0]];
    assert!(rt; ran(&outcome_of(rt.alloc(), tree), rows, 4));
    Ok(())
}

#[test]
fn operators_at_most_16(rt: HostRuntime) -> Result<(), Fail> {
    let rows_of = ramp(-200, 175, 3)?;
    let rows = [[1, -25, 0, 0, 0, 0, 0, 0], [2, 150, 0, 0, 0, 0, 0, 0]];
    let sixteen = outcome_of(
        rt.alloc(),
        three(three(three(three(three(Scan::new(rows_of)))))),
    );
    let seventeen = outcome_of(
        rt.alloc(),
        above(three(three(three(three(three(Scan::new(rows_of))))))),
    );
    let eighteen = outcome_of(
        rt.alloc(),
        above(above(three(three(three(three(three(Scan::new(rows_of)))))))),
    );
    assert_eq!(rt;
        [
            sixteen.operators == 16,
            ran(&sixteen, rows, 3),
            refused(&seventeen),
            refused(&eighteen),
        ],
        [true; 4]
    );
    Ok(())
}
