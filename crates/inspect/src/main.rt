// The program `inspect`: each line of standard input is a card in hexadecimal, or two cards with a space between.
// It answers a card's counts and canonical bytes, or its refusal, and of two good cards whether they are alike.
#![tactic(auto)]

#[cfg(test)]
mod lent;

use card::alike::alike;
use card::netlist::Card;
use console::card_of;
use hex::{FromHexError, decode, encode_to_slice};
use reading::write::write;
use std::alloc::{AllocError, Global};
use std::fmt;
use std::io::{BufRead, BufReader};

// The bytes that a text of hexadecimal digits spells, two digits each. A capital letter is no digit here.
// `decode` asks for memory before it looks at a digit, so a text with a wrong one is turned away first.
fn bytes_of(heap: Global, text: &str) -> Result<Option<Vec<u8>>, AllocError> {
    if !text
        .bytes()
        .all(|byte| matches!(byte, b'0'..=b'9' | b'a'..=b'f'))
    {
        return Ok(None);
    }
    match decode(heap, text) {
        Ok(bytes) => Ok(Some(bytes)),
        Err(FromHexError::OutOfMemory) => Err(AllocError),
        Err(_) => Ok(None),
    }
}

// Bytes that are shown in hexadecimal, two digits each, 64 bytes at a time: showing them asks for no memory.
#[derive(Drop)]
struct Hexadecimal<'a> {
    bytes: &'a [u8],
}

impl fmt::Display for Hexadecimal<'_> {
    fn fmt<W: fmt::Write>(&self, f: &mut fmt::Formatter<W>) -> fmt::Result {
        for chunk in self.bytes.chunks(64) {
            let mut room = [0; 128];
            let length = (2 * chunk.len()).min(room.len());
            let digits = &mut room[..length];
            encode_to_slice(chunk, digits).map_err(|_| fmt::Error)?;
            let text = str::from_utf8(digits).map_err(|_| fmt::Error)?;
            f.write_str(text)?;
        }
        Ok(())
    }
}

// Counts and canonical bytes of a good card. The counts are printed before there is memory for the bytes.
fn describe(rt: &HostRuntime, card: &Card) -> anyhow::Result<()> {
    let inputs = card.inputs();
    let nets = card.nets();
    let outputs = card.outputs().len();
    print!(rt; "card {inputs} inputs {nets} nets {outputs} outputs ")?;
    let bytes = write(rt.alloc(), card)?;
    println!(rt;
        "{}",
        Hexadecimal {
            bytes: bytes.as_slice()
        }
    )?;
    Ok(())
}

// The card of a text, after its refusal or the trouble with it was printed.
fn open(rt: &HostRuntime, text: &str) -> anyhow::Result<Option<Card>> {
    let Some(bytes) = bytes_of(rt.alloc(), text)? else {
        println!(rt; "no bytes")?;
        return Ok(None);
    };
    match card_of(rt.alloc(), bytes.as_slice())? {
        Ok(card) => Ok(Some(card)),
        Err(fault) => {
            println!(rt; "{fault}")?;
            Ok(None)
        }
    }
}

// Two cards on one line.
fn compare(rt: &HostRuntime, first: &str, second: &str) -> anyhow::Result<()> {
    let Some(a) = open(rt, first)? else {
        return Ok(());
    };
    let Some(b) = open(rt, second)? else {
        return Ok(());
    };
    let word = if alike(&a, &b) { "alike" } else { "not alike" };
    println!(rt; "{word}")?;
    Ok(())
}

fn answer(rt: &HostRuntime, line: &str) -> anyhow::Result<()> {
    if let Some((first, second)) = line.split_once(' ') {
        return compare(rt, first, second);
    }
    if let Some(card) = open(rt, line)? {
        describe(rt, &card)?;
    }
    Ok(())
}

fn run(rt: &HostRuntime) -> anyhow::Result<()> {
    for line in BufReader::new(rt.alloc(), rt.stdin())?.lines(rt.alloc()) {
        let text = line?;
        answer(rt, text.as_str())?;
    }
    Ok(())
}

fn main(rt: HostRuntime) -> anyhow::Result<()> {
    run(&rt)
}
