// The program `dimacs`: formulas in DIMACS text on standard input, solved one after the other by our solvers.
// Comment lines set what the text form lacks: `c leading K`, `c budget B` and `c solver backtracking` or `counting`.
#![tactic(auto)]

use solving::{AppendFault, Solver, StartFault, Verdict};
use std::fmt;
use std::io::{BufRead, BufReader};
use workbench::{Method, Workbench};

// What comment lines have set so far.
#[derive(Clone, Copy)]
struct Setup {
    leading: Option<u16>,
    budget: u64,
    method: Method,
}

// One formula: its sizes, and its literals with a 0 behind each clause, as the text has them.
#[derive(Drop)]
struct Problem {
    variables: u16,
    setup: Setup,
    literals: Vec<i16>,
}

impl Setup {
    // Sets the value of this name; any other name changes nothing.
    fn set(&mut self, name: &str, value: &str) {
        match name {
            "leading" => self.leading = value.parse::<u16>().ok().or(self.leading),
            "budget" => self.budget = value.parse::<u64>().unwrap_or(self.budget),
            "solver" => self.method = method_of(value),
            _ => {}
        }
    }

    // Takes up a comment line `c NAME VALUE`; any other comment changes nothing.
    fn note(&mut self, line: &str) {
        let mut words = line.split_whitespace().skip(1);
        if let (Some(name), Some(value)) = (words.next(), words.next()) {
            self.set(name, value);
        }
    }
}

// The method of this name; any other than counting is backtracking.
fn method_of(name: &str) -> Method {
    match name {
        "counting" => Method::Counting,
        _ => Method::Backtracking,
    }
}

// Why a formula is refused: its sizes, or one of its clauses.
#[derive(Clone, Copy)]
enum FormulaFault {
    Start(StartFault),
    Append(AppendFault),
}

impl From<StartFault> for FormulaFault {
    fn from(fault: StartFault) -> FormulaFault {
        FormulaFault::Start(fault)
    }
}

impl From<AppendFault> for FormulaFault {
    fn from(fault: AppendFault) -> FormulaFault {
        FormulaFault::Append(fault)
    }
}

impl fmt::Display for FormulaFault {
    fn fmt<W: fmt::Write>(&self, f: &mut fmt::Formatter<W>) -> fmt::Result {
        let number = match self {
            FormulaFault::Start(fault) => fault.number(),
            FormulaFault::Append(fault) => fault.number(),
        };
        write!(f, "refused {number}")
    }
}

// A literal of the text; one too large for any formula becomes a number that no formula has.
fn literal(word: &str) -> Option<i16> {
    let number = word.parse::<i64>().ok()?;
    i16::try_from(number.clamp(-30_000, 30_000)).ok()
}

// Gives the formula to the solver: each clause is the literals before a 0, and what follows the last 0 is none.
fn pose<S: Solver>(solver: &mut S, problem: &Problem) -> Result<(), FormulaFault> {
    let leading = problem.setup.leading.unwrap_or(problem.variables);
    solver.start(problem.variables, leading)?;
    let literals = problem.literals.as_slice();
    if let Some(last) = literals.iter().rposition(|literal| *literal == 0) {
        for clause in literals[..last].split(|literal| *literal == 0) {
            solver.append(clause)?;
        }
    }
    Ok(())
}

// Prints the reading that the solver holds.
fn print_reading<S: Solver>(rt: &HostRuntime, solver: &S, variables: u16) -> anyhow::Result<()> {
    print!(rt; "v ")?;
    for j in 1..=variables {
        let sign = if matches!(solver.value(j), Ok(true)) {
            ""
        } else {
            "-"
        };
        print!(rt; "{sign}{j} ")?;
    }
    println!(rt; "0")?;
    Ok(())
}

// Solves one formula and prints the answer, the steps, and the reading if there is one.
fn answer<S: Solver>(rt: &HostRuntime, solver: &mut S, problem: &Problem) -> anyhow::Result<()> {
    if let Err(fault) = pose(solver, problem) {
        println!(rt; "{fault}")?;
        return Ok(());
    }
    let solved = solver.solve(problem.setup.budget);
    let steps = solved.steps;
    match solved.verdict {
        Verdict::None => println!(rt; "none {steps}")?,
        Verdict::Undecided => println!(rt; "undecided {steps}")?,
        Verdict::Found => {
            println!(rt; "found {steps}")?;
            print_reading(rt, solver, problem.variables)?;
        }
    }
    Ok(())
}

// The number of variables that a problem line `p cnf V C` names.
fn variables_of(line: &str) -> Option<u16> {
    let mut words = line.split_whitespace().skip(1);
    match words.next()? {
        "cnf" => words.next()?.parse::<u16>().ok(),
        _ => None,
    }
}

// The reader of a text: what comments have set so far, the formula that is being read, and the solvers.
#[derive(Drop)]
struct Reader<'a> {
    rt: &'a HostRuntime,
    bench: Workbench,
    setup: Setup,
    current: Option<Problem>,
}

impl Reader<'_> {
    // Solves the formula that was read, if there is one, by the solver that it asks for.
    // A match: the two solvers differ in type, and a `dyn` would be chosen by one too.
    fn settle(&mut self) -> anyhow::Result<()> {
        let Some(problem) = self.current.take() else {
            return Ok(());
        };
        match problem.setup.method {
            Method::Backtracking => answer(self.rt, &mut self.bench.backtracking, &problem),
            Method::Counting => answer(self.rt, &mut self.bench.counting, &problem),
        }
    }

    // Begins the formula of a problem line.
    fn begin(&mut self, line: &str) -> anyhow::Result<()> {
        let Some(variables) = variables_of(line) else {
            println!(self.rt; "no formula")?;
            return Ok(());
        };
        self.current = Some(Problem {
            variables,
            setup: self.setup,
            literals: Vec::new(self.rt.alloc()),
        });
        Ok(())
    }

    // Puts the literals of one more line to the formula; a word that is none ends it, unsolved.
    fn extend(&mut self, line: &str) -> anyhow::Result<()> {
        let Some(mut problem) = self.current.take() else {
            println!(self.rt; "no formula")?;
            return Ok(());
        };
        for word in line.split_whitespace() {
            let Some(number) = literal(word) else {
                println!(self.rt; "no formula")?;
                return Ok(());
            };
            problem.literals.push(number)?;
        }
        self.current = Some(problem);
        Ok(())
    }

    // Takes up one line.
    fn take_up(&mut self, line: &str) -> anyhow::Result<()> {
        match line.split_whitespace().next() {
            None => {}
            Some("c") => self.setup.note(line),
            Some("p") => {
                self.settle()?;
                self.begin(line)?;
            }
            Some(_) => self.extend(line)?,
        }
        Ok(())
    }
}

fn run(rt: &HostRuntime) -> anyhow::Result<()> {
    let mut reader = Reader {
        rt,
        bench: Workbench::new(rt.alloc())?,
        setup: Setup {
            leading: None,
            budget: 1_000_000,
            method: Method::Backtracking,
        },
        current: None,
    };
    for line in BufReader::new(rt.alloc(), rt.stdin())?.lines(rt.alloc()) {
        let text = line?;
        reader.take_up(text.as_str())?;
    }
    reader.settle()
}

fn main(rt: HostRuntime) -> anyhow::Result<()> {
    run(&rt)
}
