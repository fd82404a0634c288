// The worked examples of the block join, run by the code and printed beside the theorem that proves them of the
// definitions.
#![tactic(auto)]

use block_join::BlockJoin;
use operator::{Answer, Operator};
use pairing::JoinRule;
use printing::{Cells, HexBytes, P};
use scan::Scan;
use source::Image;
use worked_joins::join_examples_hold;

// The table Q: (4,10), (5,150), (5,400).
const Q: [u8; 28] = [
    1, 0, 3, 2, 0, 0, 0, 4, 0, 0, 0, 10, 0, 0, 0, 5, 0, 0, 0, 0x96, 0, 0, 0, 5, 0, 0, 1, 0x90,
];

// The rows that a tree answers in five steps, by their first four cells.
fn print_five(rt: &impl Print, tree: &mut impl Operator) -> anyhow::Result<()> {
    print!(rt; "J, P and Q by equal cells 0 in blocks of 2, after five steps:")?;
    for _ in 0..5 {
        if let Answer::Row(row) = tree.step() {
            print!(rt; " {}", Cells(&row.cells[..4]))?;
        }
    }
    println!(rt; "")?;
    Ok(())
}

// The record of a tree for one choice, a byte of its list, and what it owes.
fn print_saved(rt: &impl Print, tree: &impl Operator, choice: u8) -> anyhow::Result<()> {
    let mut buffer = [0u8; 64];
    let owed = tree.refetch(&[choice]);
    match tree.save(&[choice], &mut buffer) {
        Ok(size) => {
            let record = HexBytes(&buffer[..size.min(64)]);
            println!(rt; "J saved by choice {choice}, {owed} rows to fetch again:{record}")?;
        }
        Err(refusal) => println!(rt; " {refusal}")?,
    }
    Ok(())
}

fn run_all(rt: &impl Print) -> anyhow::Result<()> {
    let rule = JoinRule {
        size: 2,
        outer_cell: 0,
        inner_cell: 0,
        condition: b'=',
        band: 0,
    };
    let mut tree = BlockJoin::new(rule, Scan::new(Image::new(&P)?), Scan::new(Image::new(&Q)?));
    print_five(rt, &mut tree)?;
    print_saved(rt, &tree, 2)?;
    print_saved(rt, &tree, 1)?;
    let proved = join_examples_hold();
    println!(rt; "proved of the definitions: {proved}")?;
    Ok(())
}

fn main(rt: HostRuntime) -> anyhow::Result<()> {
    run_all(&rt)
}
