// The program `caught`: a card file, then lines of cells on standard input; for each line the numbers of the faults that it catches.
// All that decides anything is in the libraries; this file reads, asks fault by fault and prints.
#![tactic(auto)]

use card::netlist::Card;
use console::card_named;
use faults::model::FaultModel;
use std::alloc::{AllocError, Global};
use std::io::{BufRead, BufReader};
use vectors::row::row;
use vectors::vector::Vector;

// The numbers of the faults that the vector catches, rising.
fn caught_by(heap: Global, model: &FaultModel, vector: &Vector) -> Result<Vec<usize>, AllocError> {
    let response = model.response(vector);
    (0..model.fault_count())
        .filter(|fault| response.catches(*fault))
        .collect(heap)
}

// Prints the faults that one line of cells catches, or says that it is none.
fn answer(rt: &HostRuntime, model: &FaultModel, line: &str) -> anyhow::Result<()> {
    let inputs = model.card().inputs();
    let Some(vector) = row(line.as_bytes(), inputs) else {
        println!(rt; "not a row of {inputs} cells")?;
        return Ok(());
    };
    let numbers = caught_by(rt.alloc(), model, &vector)?;
    let count = numbers.len();
    let all = model.fault_count();
    print!(rt; "caught {count} of {all}:")?;
    for number in &numbers {
        print!(rt; " {number}")?;
    }
    println!(rt)?;
    Ok(())
}

// Answers every line of cells for a good card.
fn serve(rt: &HostRuntime, card: Card) -> anyhow::Result<()> {
    let model = FaultModel::open(rt.alloc(), card)?;
    for line in BufReader::new(rt.alloc(), rt.stdin())?.lines(rt.alloc()) {
        let text = line?;
        answer(rt, &model, text.as_str())?;
    }
    Ok(())
}

fn run(rt: &HostRuntime) -> anyhow::Result<()> {
    match card_named(rt, "usage: caught CARD-FILE < ROWS")? {
        Ok(card) => serve(rt, card)?,
        Err(fault) => println!(rt; "{fault}")?,
    }
    Ok(())
}

fn main(rt: HostRuntime) -> anyhow::Result<()> {
    run(&rt)
}
