// Reads cases from standard input, each led by its kind, a byte, and its length, a 16-bit number, and writes the answers of layers 1 and 2
// as lines. Kind 0 is a card: the check's and the reader's answer, and if it is whole, the card written back. Any other kind is tables:
// the writers' answers; 255 ends the run, and so does a case that is not all there.
#![tactic(auto)]

mod back;
mod lines;
mod tables;
mod writers;

use crate::back::CardRows;
use crate::lines::{put_counts, put_refusal};
use crate::tables::Tables;
use crate::writers::put_writers;
use card::reader::read;
use card::{Counts, TABLE};
use console::cases::{BUFFER_BYTES, EndOfRun, numbers_in, read_lead, read_rest};
use console::put;
use hierarchy::CardRefusal;
use hierarchy::check::check;
use std::io;

// The most numbers of a case's tables.
const MOST_NUMBERS: usize = 40000;

#[derive(Clone, Copy)]
enum Kind {
    Card,
    Tables,
}

impl TryFrom<u8> for Kind {
    type Error = EndOfRun;

    fn try_from(kind: u8) -> Result<Self, EndOfRun> {
        match kind {
            0 => Ok(Kind::Card),
            255 => Err(EndOfRun),
            _ => Ok(Kind::Tables),
        }
    }
}

fn put_answer(
    rt: &HostRuntime,
    word: &[u8],
    answer: Result<Counts, CardRefusal>,
) -> io::Result<()> {
    put(rt, word)?;
    match answer {
        Ok(counts) => put_counts(rt, counts),
        Err(refusal) => put_refusal(rt, refusal.fault.number(), refusal.bit),
    }?;
    put(rt, b"\n")
}

fn put_card_case(rt: &HostRuntime, card: &[u8]) -> io::Result<()> {
    put_answer(rt, b"check", check(card))?;
    let mut numbers = [0; TABLE];
    match read(card, &mut numbers) {
        Ok(index) => {
            put_answer(rt, b"read", Ok(index.counts()))?;
            put_writers(rt, CardRows::of_card(&numbers).tables(card.len()))
        }
        Err(refusal) => put_answer(rt, b"read", Err(CardRefusal::from(refusal))),
    }
}

// The numbers behind the case's end are 0, so that a case of many arcs can be short. Tables that are not all there have no line.
fn put_tables_case(rt: &HostRuntime, case: &[u8]) -> io::Result<()> {
    let mut numbers = [0; MOST_NUMBERS];
    numbers_in(case, &mut numbers);
    match Tables::in_case(&numbers) {
        Some(tables) => put_writers(rt, tables),
        None => Ok(()),
    }
}

// Ends where the input does, or at a case that is not all there. Nothing says that an input ends, so the turns are counted, to a number that no
// run reaches.
fn put_cases(rt: &HostRuntime, buffer: &mut [u8]) -> io::Result<()> {
    for _ in 0..u64::MAX {
        let Some(lead) = read_lead(rt) else {
            return Ok(());
        };
        let Some(lead) = read_rest(rt, lead, buffer) else {
            return Ok(());
        };
        let case = &buffer[..lead.length];
        match Kind::try_from(lead.kind) {
            Ok(Kind::Card) => put_card_case(rt, case),
            Ok(Kind::Tables) => put_tables_case(rt, case),
            Err(EndOfRun) => return Ok(()),
        }?;
    }
    Ok(())
}

fn main(rt: HostRuntime) -> io::Result<()> {
    let mut buffer = [0; BUFFER_BYTES];
    put_cases(&rt, &mut buffer)
}
