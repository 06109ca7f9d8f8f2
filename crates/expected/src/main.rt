// The program `expected`: a card file, then lines of cells on standard input; for each line the outputs that a good card shows.
// All that decides anything is in the libraries; this file reads and prints.
#![tactic(auto)]

use anyhow::anyhow;
use card::netlist::Card;
use console::card_named;
use std::io::{BufRead, BufReader};
use tester::outputs::expected_outputs;
use vectors::row::row;

// Prints the outputs for one line of cells, or says that it is none.
fn answer(rt: &HostRuntime, card: &Card, line: &str) -> anyhow::Result<()> {
    let inputs = card.inputs();
    let Some(vector) = row(line.as_bytes(), inputs) else {
        println!(rt; "not a row of {inputs} cells")?;
        return Ok(());
    };
    // Lent, since the tester's call for C fills such a buffer, and answers how many characters it wrote.
    let mut shown = [b' '; 32];
    let Ok(count) = expected_outputs(card, &vector, &mut shown) else {
        return Err(anyhow!("a card with more than 32 outputs"));
    };
    let characters = shown.iter().take(count).map(|byte| char::from(*byte));
    let text: String = characters.collect(rt.alloc())?;
    println!(rt; "{text}")?;
    Ok(())
}

// Answers every line of cells for a good card.
fn serve(rt: &HostRuntime, card: &Card) -> anyhow::Result<()> {
    for line in BufReader::new(rt.alloc(), rt.stdin())?.lines(rt.alloc()) {
        let text = line?;
        answer(rt, card, text.as_str())?;
    }
    Ok(())
}

fn run(rt: &HostRuntime) -> anyhow::Result<()> {
    match card_named(rt, "usage: expected CARD-FILE < ROWS")? {
        Ok(card) => serve(rt, &card)?,
        Err(fault) => println!(rt; "{fault}")?,
    }
    Ok(())
}

fn main(rt: HostRuntime) -> anyhow::Result<()> {
    run(&rt)
}
