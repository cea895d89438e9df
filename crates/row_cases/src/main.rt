// Reads cases from standard input, each led by its kind, a byte, and its length, a 16-bit number, and writes layer 3's answers as lines.
//
// 0: a card. Its refusal, or its fresh state, which both runners begin with.
// 1: a row call of both runners: the length of the visiting order, the order and the row, as 16-bit numbers.
// 2: an entry of both states is set: the field, the index, and the value in two numbers.
// 3: the card is flattened into a buffer of so many bytes, all of which are written.
// 4: a rows file, run from the fresh state.
// Any other kind ends the run, and so does a case that is not all there.
#![tactic(auto)]

mod calls;
mod files;
mod lines;
mod states;

ghost use Rattle.std.specs.Prelude.{◌≡◌, length};

use crate::calls::{Held, begin, put_call, put_flat, set_entry};
use crate::files::put_file;
use console::cases::{BUFFER_BYTES, EndOfRun, Lead, read_lead, read_rest};
use std::io;

// What a case is. No `Option` of a call: a card is a case too, and ends the calls with the one before it.
#[derive(Clone, Copy)]
enum Kind {
    Card,
    Call(Call),
}

// What is asked of a card.
#[derive(Clone, Copy)]
enum Call {
    Row,
    Entry,
    Flat,
    File,
}

impl TryFrom<u8> for Kind {
    type Error = EndOfRun;

    fn try_from(kind: u8) -> Result<Self, EndOfRun> {
        match kind {
            0 => Ok(Kind::Card),
            1 => Ok(Kind::Call(Call::Row)),
            2 => Ok(Kind::Call(Call::Entry)),
            3 => Ok(Kind::Call(Call::Flat)),
            4 => Ok(Kind::Call(Call::File)),
            _ => Err(EndOfRun),
        }
    }
}

fn answer(rt: &HostRuntime, call: Call, card: &[u8], case: &[u8], held: Held) -> io::Result<Held> {
    match call {
        Call::Row => return put_call(rt, card, case, held),
        Call::Entry => return Ok(set_entry(case, held)),
        Call::Flat => put_flat(rt, card, case)?,
        Call::File => put_file(rt, card, case)?,
    }
    Ok(held)
}

// The calls after a card. The answer is the card behind them; `None` where the run ends.
fn put_calls(
    rt: &HostRuntime,
    card: &[u8],
    body: &mut [u8],
    first: Held,
) -> io::Result<Option<Lead>>
    ensures { length body.new ≡ length body.old }
{
    let mut held = first;
    for _ in 0..u64::MAX {
        let Some(lead) = read_lead(rt) else {
            return Ok(None);
        };
        let kind = Kind::try_from(lead.kind);
        if let Ok(Kind::Card) = kind {
            return Ok(Some(lead));
        }
        let Some(case) = read_rest(rt, lead, body) else {
            return Ok(None);
        };
        let Ok(Kind::Call(call)) = kind else {
            return Ok(None);
        };
        held = answer(rt, call, card, &body[..case.length], held)?;
    }
    Ok(None)
}

// A card, which is still to be read, and the calls with it. The answer is the card behind them; `None` where the run ends.
fn put_card(
    rt: &HostRuntime,
    lead: Lead,
    buffer: &mut [u8],
    body: &mut [u8],
) -> io::Result<Option<Lead>>
    ensures buffer_len_unchanged { length buffer.new ≡ length buffer.old }
    ensures body_len_unchanged { length body.new ≡ length body.old }
{
    let Some(case) = read_rest(rt, lead, buffer) else {
        return Ok(None);
    };
    let card = &buffer[..case.length];
    let held = begin(rt, card)?;
    put_calls(rt, card, body, held)
}

// The input begins with a card. Nothing says that it ends, so the turns are counted, to a number that no run reaches.
fn put_cases(rt: &HostRuntime, buffer: &mut [u8], body: &mut [u8]) -> io::Result<()> {
    let mut next = read_lead(rt).filter(|lead| matches!(Kind::try_from(lead.kind), Ok(Kind::Card)));
    for _ in 0..u64::MAX {
        let Some(lead) = next else {
            return Ok(());
        };
        next = put_card(rt, lead, buffer, body)?;
    }
    Ok(())
}

fn main(rt: HostRuntime) -> io::Result<()> {
    let mut buffer = [0; BUFFER_BYTES];
    let mut body = [0; BUFFER_BYTES];
    put_cases(&rt, &mut buffer, &mut body)
}
