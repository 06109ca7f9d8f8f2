// The program `sheet`: card bytes on standard input, the sheet on standard output, all else on standard error.
// All that decides anything is in the libraries; this file reads and prints.
#![tactic(auto)]

use anyhow::anyhow;
use sheets::fault::SheetFault;
use sheets::print::{SHEET_ROOM, sheet};
use sheets::progress::Progress;
use std::io::{Read, Write};
use std::time::Instant;

// Says on standard error how far the work is, every few seconds.
#[derive(Drop)]
struct Meter<'a> {
    rt: &'a HostRuntime,
    since: Instant,
}

// So many seconds pass between two messages.
const SECONDS: u64 = 5;

impl Progress for Meter<'_> {
    // What it says on standard error no contract knows.
    ghost tells = { λ _ _ _ _. Unit {0} };

    fn begin(&mut self, fault: usize, faults: usize) {
        let Ok(waited) = self.since.elapsed(self.rt) else {
            return;
        };
        if waited.as_secs() < SECONDS {
            return;
        }
        let _ = eprintln!(self.rt; "at fault {fault} of {faults}");
        if let Ok(now) = Instant::now(self.rt) {
            self.since = now;
        }
    }
}

// Why nothing was printed. A function and no Display: these words are this program's alone, the library knows numbers.
fn reason(fault: SheetFault) -> anyhow::Error {
    match fault {
        SheetFault::Room => anyhow!("a buffer with too little room"),
        SheetFault::Memory => anyhow!("no memory for the work"),
        SheetFault::Card(_) => anyhow!("a card that is refused"),
    }
}

fn run(rt: &HostRuntime) -> anyhow::Result<()> {
    let mut bytes = Vec::new(rt.alloc());
    let _count = rt.stdin().read_to_end(&mut bytes)?;
    let mut buffer = vec![in rt.alloc(); 0u8; SHEET_ROOM]?;
    let mut meter = Meter {
        rt,
        since: Instant::now(rt)?,
    };
    let printed = sheet(rt.alloc(), bytes.as_slice(), &mut buffer, &mut meter).map_err(reason)?;
    let Some(text) = buffer.get(0..printed.length) else {
        return Err(anyhow!("a sheet longer than its buffer"));
    };
    rt.stdout().write_all(text)?;
    Ok(())
}

fn main(rt: HostRuntime) -> anyhow::Result<()> {
    run(&rt)
}
