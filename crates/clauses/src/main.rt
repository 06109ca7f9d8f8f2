// The program `clauses`: a card file, then fault numbers on standard input, one to a line; for each the fault's formula in DIMACS text,
// so that any other solver can be set on it. The encoder gives the formula to a solver, and what that solver holds is printed.
#![tactic(auto)]

use card::netlist::Card;
use console::{card_named, number};
use faults::model::FaultModel;
use formula::pose::pose;
use formula::variable_count;
use solvers::Backtracking;
use std::alloc::{AllocError, Global};
use std::fmt::Write;
use std::io::{BufRead, BufReader};

// A clause takes at least one of a solver's places, so there are no more clauses than these.
const PLACES: usize = 9216;

// The clauses that the solver holds, in order.
fn held(heap: Global, solver: &Backtracking) -> Result<Vec<&[i16]>, AllocError> {
    (0..PLACES)
        .map_while(|number| solver.clause(number))
        .collect(heap)
}

// The places that the clauses use: one for each literal, and one for each clause.
fn places(clauses: &[&[i16]]) -> usize {
    clauses.iter().fold(clauses.len(), |sum, clause| {
        sum.saturating_add(clause.len())
    })
}

// Puts a clause behind the text, as a line.
fn put_clause(text: &mut String, clause: &[i16]) -> Result<(), AllocError> {
    for literal in clause {
        write!(text, "{literal} ")?;
    }
    text.push_str("0\n")
}

// The formula that the solver was given for a fault of this card, as text.
fn text(heap: Global, card: &Card, solver: &Backtracking) -> anyhow::Result<String> {
    let clauses = held(heap, solver)?;
    let leading = card.inputs();
    let places = places(clauses.as_slice());
    let variables = variable_count(card);
    let count = clauses.len();
    let mut text = format!(in heap;
        "c leading {leading}\nc places {places}\np cnf {variables} {count}\n"
    )?;
    for clause in clauses.as_slice() {
        put_clause(&mut text, clause)?;
    }
    Ok(text)
}

// Prints the formula of the fault that a line names, or why there is none.
fn answer(
    rt: &HostRuntime,
    model: &FaultModel,
    solver: &mut Backtracking,
    line: &str,
) -> anyhow::Result<()> {
    let Some(fault) = number::<usize>(line) else {
        println!(rt; "not a fault number")?;
        return Ok(());
    };
    if let Err(refusal) = pose(solver, model, fault) {
        println!(rt; "{refusal}")?;
        return Ok(());
    }
    let text = text(rt.alloc(), model.card(), solver)?;
    print!(rt; "{text}")?;
    Ok(())
}

// Answers every line for a good card.
fn serve(rt: &HostRuntime, card: Card) -> anyhow::Result<()> {
    let model = FaultModel::open(rt.alloc(), card)?;
    let mut solver = Backtracking::new(rt.alloc())?;
    for line in BufReader::new(rt.alloc(), rt.stdin())?.lines(rt.alloc()) {
        let line = line?;
        answer(rt, &model, &mut solver, line.as_str())?;
    }
    Ok(())
}

fn run(rt: &HostRuntime) -> anyhow::Result<()> {
    match card_named(rt, "usage: clauses CARD-FILE < FAULT-NUMBERS")? {
        Ok(card) => serve(rt, card)?,
        Err(fault) => println!(rt; "{fault}")?,
    }
    Ok(())
}

fn main(rt: HostRuntime) -> anyhow::Result<()> {
    run(&rt)
}
