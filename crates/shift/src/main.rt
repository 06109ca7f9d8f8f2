// The program `shift`: a card file, then one call a line on standard input, and one answer a line.
// All that decides anything is in the libraries; this file reads calls in words, asks the desk and prints.
#![tactic(auto)]

use card::netlist::Card;
use console::{card_named, number};
use desk::Desk;
use history::mark::Mark;
use job::shown::{Counts, Listed, Marked};
use requests::{Reply, Request};
use solving::{Solved, Verdict};
use std::alloc::{AllocError, Global};
use std::io::{BufRead, BufReader};
use std::str::FromStr;
use vectors::row::character;
use vectors::vector::Vector;
use workbench::{Method, Workbench};

#[derive(Clone, Copy)]
enum Call {
    // Ask the job for this, which needs no ticket.
    Ask(Request),
    // Search for this fault within a budget.
    Search(usize, u64, Method),
    // Close this fault.
    Close(usize),
    // Show the mark of this fault.
    Mark(usize),
    // Show this vector.
    Vector(usize),
    // Show the counts.
    Counts,
}

// Two numbers with a space between.
fn pair<T: FromStr + Drop>(words: &str) -> Option<(T, T)>
where
    T::Err: Drop,
{
    let (first, second) = words.split_once(' ')?;
    Some((number(first)?, number(second)?))
}

// `FAULT BUDGET` or `FAULT BUDGET counting`.
fn search_of(words: &str) -> Option<Call> {
    let (fault, rest) = words.split_once(' ')?;
    let (budget, method) = match rest.split_once(' ') {
        None => (rest, Method::Backtracking),
        Some((budget, "counting")) => (budget, Method::Counting),
        Some(_) => return None,
    };
    Some(Call::Search(number(fault)?, number(budget)?, method))
}

// `CARE VALUE`.
fn add_of(words: &str) -> Option<Call> {
    let (care, value) = pair::<u32>(words)?;
    Some(Call::Ask(Request::Add(care, value)))
}

// `INTO GONE`.
fn merge_of(words: &str) -> Option<Call> {
    let (into, gone) = pair::<usize>(words)?;
    Some(Call::Ask(Request::Merge(into, gone)))
}

// The call that a line spells; None for any other line.
fn call_of(line: &str) -> Option<Call> {
    let Some((name, words)) = line.split_once(' ') else {
        return (line == "counts").then_some(Call::Counts);
    };
    match name {
        "take" => Some(Call::Ask(Request::Take(number(words)?))),
        "search" => search_of(words),
        "close" => Some(Call::Close(number(words)?)),
        "sweep" => Some(Call::Ask(Request::Sweep(number(words)?))),
        "add" => add_of(words),
        "merge" => merge_of(words),
        "mark" => Some(Call::Mark(number(words)?)),
        "vector" => Some(Call::Vector(number(words)?)),
        _ => None,
    }
}

// The cells of a vector as text, from input 0.
fn cells(heap: Global, vector: &Vector, count: usize) -> Result<String, AllocError> {
    (0..count)
        .map(|input| char::from(character(vector.cell(input))))
        .collect(heap)
}

// The words that follow are the program's alone.
fn print_marked(rt: &HostRuntime, shown: Marked) -> anyhow::Result<()> {
    let taken = if shown.taken { " taken" } else { "" };
    match shown.mark {
        Mark::Open => println!(rt; "open{taken}")?,
        Mark::Detected(vector) => println!(rt; "detected {vector}{taken}")?,
        Mark::Untestable => println!(rt; "untestable{taken}")?,
    }
    Ok(())
}

// The desk, and the solvers that its searches are made by.
struct Shift<'a> {
    rt: &'a HostRuntime,
    desk: Desk,
    bench: Workbench,
}

impl Shift<'_> {
    // What a search found; the newest vector is the one that it put last.
    fn print_solved(&self, solved: Solved) -> anyhow::Result<()> {
        let steps = solved.steps;
        match solved.verdict {
            Verdict::Found => {
                let newest = self.desk.job().vectors().len().saturating_sub(1);
                println!(self.rt; "found vector {newest} steps {steps}")?;
            }
            Verdict::None => println!(self.rt; "none steps {steps}")?,
            Verdict::Undecided => println!(self.rt; "undecided steps {steps}")?,
        }
        Ok(())
    }

    // Printed here and not by Display: the reply's type is a library's, and the vector that a search found is known to the job alone.
    fn print_reply(&self, reply: Reply) -> anyhow::Result<()> {
        match reply {
            Reply::Taken => println!(self.rt; "taken")?,
            Reply::Searched(solved) => self.print_solved(solved)?,
            Reply::Closed => println!(self.rt; "closed")?,
            Reply::Swept(count) => println!(self.rt; "swept {count}")?,
            Reply::Added(vector) => println!(self.rt; "added {vector}")?,
            Reply::Merged => println!(self.rt; "merged")?,
            Reply::NoTicket => println!(self.rt; "no ticket")?,
            Reply::Refused(refusal) => println!(self.rt; "{refusal}")?,
        }
        Ok(())
    }

    fn print_mark(&self, fault: usize) -> anyhow::Result<()> {
        match self.desk.job().mark(fault) {
            Ok(shown) => print_marked(self.rt, shown)?,
            Err(refusal) => println!(self.rt; "{refusal}")?,
        }
        Ok(())
    }

    // The cells of a listed vector, and those of its outputs.
    fn print_listed(&self, listed: Listed) -> anyhow::Result<()> {
        let heap = self.rt.alloc();
        let card = self.desk.job().card();
        let inputs = cells(heap, &listed.vector, card.inputs())?;
        let outputs = cells(heap, &listed.outputs, card.outputs().len())?;
        println!(self.rt; "{inputs} {outputs}")?;
        Ok(())
    }

    fn print_vector(&self, number: usize) -> anyhow::Result<()> {
        match self.desk.job().vector(number) {
            Ok(listed) => self.print_listed(listed)?,
            Err(refusal) => println!(self.rt; "{refusal}")?,
        }
        Ok(())
    }

    fn print_counts(&self) -> anyhow::Result<()> {
        let Counts {
            open,
            detected,
            untestable,
            taken,
        } = self.desk.job().counts();
        println!(self.rt; "open {open} detected {detected} untestable {untestable} taken {taken}")?;
        Ok(())
    }

    // Asks for a request and prints what it got; a search is made by the method's solver.
    // A match: the two solvers differ in type, and a `dyn` would be chosen by one too.
    fn ask(&mut self, request: Request, method: Method) -> anyhow::Result<()> {
        let heap = self.rt.alloc();
        let reply = match method {
            Method::Backtracking => self.desk.ask(heap, &mut self.bench.backtracking, request)?,
            Method::Counting => self.desk.ask(heap, &mut self.bench.counting, request)?,
        };
        self.print_reply(reply)
    }

    // The same with the ticket for a fault, if there is one: the request is made for the ticket's place.
    fn ask_with_ticket<F: FnOnce(usize) -> Request>(
        &mut self,
        fault: usize,
        request: F,
        method: Method,
    ) -> anyhow::Result<()>
        requires { F.IsAlwaysCallable request }
    {
        match self.desk.place(fault) {
            Some(place) => self.ask(request(place), method),
            None => self.print_reply(Reply::NoTicket),
        }
    }

    // Answers one line.
    fn answer(&mut self, line: &str) -> anyhow::Result<()> {
        let Some(call) = call_of(line) else {
            println!(self.rt; "not a call")?;
            return Ok(());
        };
        match call {
            Call::Ask(request) => self.ask(request, Method::Backtracking),
            Call::Search(fault, budget, method) => {
                self.ask_with_ticket(fault, |place| Request::Search(place, budget), method)
            }
            Call::Close(fault) => {
                self.ask_with_ticket(fault, |place| Request::Close(place), Method::Backtracking)
            }
            Call::Mark(fault) => self.print_mark(fault),
            Call::Vector(number) => self.print_vector(number),
            Call::Counts => self.print_counts(),
        }
    }

    // Answers every line.
    fn serve(&mut self) -> anyhow::Result<()> {
        let heap = self.rt.alloc();
        for line in BufReader::new(heap, self.rt.stdin())?.lines(heap) {
            let text = line?;
            self.answer(text.as_str())?;
        }
        Ok(())
    }
}

// Works through the calls on a good card. Whatever ends them, the tickets that are left are closed.
fn work(rt: &HostRuntime, card: Card) -> anyhow::Result<()> {
    let bench = Workbench::new(rt.alloc())?;
    let desk = Desk::open(rt.alloc(), card)?;
    let mut shift = Shift { rt, desk, bench };
    let served = shift.serve();
    let Shift {
        rt: _,
        desk,
        bench: _,
    } = shift;
    let closed = desk.finish();
    served?;
    println!(rt; "closed at end {closed}")?;
    Ok(())
}

fn run(rt: &HostRuntime) -> anyhow::Result<()> {
    match card_named(rt, "usage: shift CARD-FILE < CALLS")? {
        Ok(card) => work(rt, card)?,
        Err(fault) => println!(rt; "{fault}")?,
    }
    Ok(())
}

fn main(rt: HostRuntime) -> anyhow::Result<()> {
    run(&rt)
}
