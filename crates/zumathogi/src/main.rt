// The passing rows of a table image or a ramp, printed.
#![tactic(auto)]

use anyhow::anyhow;
use codec::Row;
use command::{Command, command_of, refusal_text};
use run::Failure;
use select::{Selection, select_image, select_ramp};
use std::{env, fs};

const USAGE: &str = "usage: zumathogi filter FILE CELL CONDITION CONSTANT
       zumathogi ramp START STEP COUNT CELL CONDITION CONSTANT
CELL is a cell's number from 0, CONDITION one of = < >";

// One row, its cells within the width.
fn print_row(rt: &impl Print, width: usize, row: &Row) -> anyhow::Result<()> {
    if let [first, rest @ ..] = &row.cells[..width.min(8)] {
        print!(rt; "{first}")?;
        for cell in rest {
            print!(rt; " {cell}")?;
        }
    }
    println!(rt; "")?;
    Ok(())
}

fn print_selection(rt: &impl Print, found: &Selection) -> anyhow::Result<()> {
    for row in found.rows.iter() {
        print_row(rt, found.width, row)?;
    }
    println!(rt; "{} of {} rows", found.rows.len(), found.steps)?;
    Ok(())
}

fn print_result(rt: &HostRuntime, res: Result<Selection, Failure>) -> anyhow::Result<()> {
    match res {
        Ok(found) => print_selection(rt, &found),
        Err(Failure::Refused(refusal)) => {
            let text = refusal_text(rt.alloc(), refusal)?;
            println!(rt; "{text}")?;
            Err(anyhow!("nothing was selected"))
        }
        Err(Failure::NoMemory) => Err(anyhow!("out of memory")),
    }
}

fn answer(rt: &HostRuntime, command: Command) -> anyhow::Result<()> {
    match command {
        Command::Filter { path, wanted } => {
            let bytes = fs::read(rt, path)?;
            print_result(rt, select_image(rt.alloc(), &bytes, wanted))
        }
        Command::Ramp { slope, wanted } => {
            print_result(rt, select_ramp(rt.alloc(), slope, wanted))
        }
    }
}

fn run_words(rt: &HostRuntime) -> anyhow::Result<()> {
    let args: Vec<String> = env::args(rt)?.skip(1).collect(rt.alloc())?;
    let words: Vec<&str> = args.iter().map(|word| word.as_str()).collect(rt.alloc())?;
    let Some(command) = command_of(&words) else {
        rt.println(USAGE)?;
        return Err(anyhow!("no such command"));
    };
    answer(rt, command)
}

fn main(rt: HostRuntime) -> anyhow::Result<()> {
    run_words(&rt)
}
