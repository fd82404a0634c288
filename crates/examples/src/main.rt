// The worked examples, run by the code and printed beside the theorem that proves them of the definitions.
#![tactic(auto)]

use anyhow::anyhow;
use codec::{Row, layouts_read_back, write_row};
use filter::{Criterion, Filter};
use operator::Operator;
use plan::is_one_tree;
use printing::{Cells, HexBytes, P};
use scan::Scan;
use select::select_image;
use source::{Image, Ramp, Slope, Source};
use worked::examples_hold;

// P with one byte more.
const LONGER: [u8; 29] = [
    1, 0, 3, 2, 0, 0, 0, 3, 0xFF, 0xFF, 0xFF, 0x38, 0, 0, 0, 4, 0, 0, 0, 0, 0, 0, 0, 5, 0, 0, 0,
    0x96, 0,
];

// The rows whose cell 1 is above 0.
const ABOVE_0: Criterion = Criterion {
    cell: 1,
    condition: b'>',
    constant: 0,
};

// A row of two cells.
fn print_pair(rt: &impl Print, row: &Row) -> anyhow::Result<()> {
    print!(rt; " {}", Cells(&row.cells[..2]))?;
    Ok(())
}

fn print_source(rt: &impl Print, source: &impl Source) -> anyhow::Result<()> {
    for row in (0..source.count()).filter_map(|i| source.row(i)) {
        print_pair(rt, &row)?;
    }
    println!(rt; "")?;
    Ok(())
}

fn print_image(rt: &impl Print, name: &str, bytes: &[u8]) -> anyhow::Result<()> {
    print!(rt; "{name}:")?;
    match Image::new(bytes) {
        Ok(image) => print_source(rt, &image)?,
        Err(refusal) => println!(rt; " {refusal}")?,
    }
    Ok(())
}

fn print_ramp(rt: &impl Print, start: i32, step: i32, count: u16) -> anyhow::Result<()> {
    print!(rt; "ramp {start} step {step} count {count}:")?;
    match Ramp::new(Slope { start, step, count }) {
        Ok(ramp) => print_source(rt, &ramp)?,
        Err(refusal) => println!(rt; " {refusal}")?,
    }
    Ok(())
}

// The last row of P as bytes.
fn print_row(rt: &impl Print) -> anyhow::Result<()> {
    let row = Row {
        cells: [5, 150, 0, 0, 0, 0, 0, 0],
    };
    let mut bytes = [0u8; 8];
    write_row(&mut bytes, 2, &row)?;
    println!(rt; "row (5,150):{}", HexBytes(&bytes))?;
    Ok(())
}

fn print_filter(rt: &HostRuntime) -> anyhow::Result<()> {
    print!(rt; "P by cell 1 > 0:")?;
    let found = select_image(rt.alloc(), &P, ABOVE_0).map_err(|_| anyhow!("refused"))?;
    for row in found.rows.iter() {
        print_pair(rt, row)?;
    }
    println!(rt; "")?;
    Ok(())
}

// The plan of that filter over a scan of P.
fn print_plan(rt: &impl Print) -> anyhow::Result<()> {
    let tree = Filter::new(Scan::new(Image::new(&P)?), ABOVE_0);
    let mut plan = [0u8; 11];
    tree.write_plan(&mut plan)?;
    println!(rt;
        "plan of that filter, one tree {}:{}",
        is_one_tree(&plan),
        HexBytes(&plan)
    )?;
    Ok(())
}

// The record of a scan of P after one row.
fn print_record(rt: &impl Print) -> anyhow::Result<()> {
    let mut scan = Scan::new(Image::new(&P)?);
    scan.step();
    let mut record = [0u8; 4];
    scan.save(&[], &mut record)?;
    println!(rt; "record of a scan of P after one row:{}", HexBytes(&record))?;
    Ok(())
}

// What a scan of P does that takes up at a position.
fn print_load(rt: &impl Print, position: u8) -> anyhow::Result<()> {
    let mut scan = Scan::new(Image::new(&P)?);
    print!(rt; "scan of P at position {position}:")?;
    if let Err(refusal) = scan.load(&[0, 2, 0, position]) {
        println!(rt; " {refusal}")?;
        return Ok(());
    }
    println!(rt; " {}", scan.step())?;
    Ok(())
}

fn run_all(rt: &HostRuntime) -> anyhow::Result<()> {
    print_image(rt, "P", &P)?;
    print_image(rt, "P and a byte more", &LONGER)?;
    print_image(rt, "no rows", &[1, 0, 0, 2])?;
    print_ramp(rt, -200, 175, 3)?;
    print_ramp(rt, 2147483647, 1, 1)?;
    print_ramp(rt, 2147483647, 1, 2)?;
    print_row(rt)?;
    print_filter(rt)?;
    print_plan(rt)?;
    print_record(rt)?;
    print_load(rt, 2)?;
    print_load(rt, 3)?;
    print_load(rt, 4)?;
    let proved = examples_hold() && layouts_read_back();
    println!(rt; "proved of the definitions: {proved}")?;
    Ok(())
}

fn main(rt: HostRuntime) -> anyhow::Result<()> {
    run_all(&rt)
}
