// The cases, each answered on the card and the states that are held.
use crate::lines::{put_answer, put_line, put_state};
use crate::states::{Field, with_entry};
use console::cases::{BUFFER_BYTES, FILLER, number_at, numbers_in};
use console::{put, put_text};
use flattening::flatten;
use programs::line::turned_back_line;
use runners::State;
use runners::flat_runner::flat_row;
use runners::fresh::{first_state, fresh};
use runners::subnet_runner::subnet_row;
use std::io;

// The states of the two runners, and the number of the next call. No input has so many calls that the number stays.
#[derive(Clone, Copy)]
pub struct Held {
    pub flat: State,
    pub subnet: State,
    pub number: u64,
}

// A card: its refusal, or its fresh state. With a refused card both runners hold the blank state.
pub fn begin(rt: &HostRuntime, card: &[u8]) -> io::Result<Held> {
    let start = fresh(card);
    match start {
        Ok(first) => put_state(rt, 0, &first.state),
        Err(refusal) => put_line(rt, turned_back_line(refusal)),
    }?;
    let state = first_state(&start);
    Ok(Held {
        flat: state,
        subnet: state,
        number: 1,
    })
}

fn called(
    rt: &HostRuntime,
    card: &[u8],
    order: &[u16],
    row: &[u16],
    held: Held,
) -> io::Result<Held> {
    let n = held.number;
    let flat = flat_row(card, held.flat, row);
    put_answer(rt, n, &flat)?;
    let subnet = subnet_row(card, held.subnet, order, row);
    put_answer(rt, n, &subnet)?;
    Ok(Held {
        flat: flat.state,
        subnet: subnet.state,
        number: n.saturating_add(1),
    })
}

// The length of the order, the order, and the row. A call that is not all there has no lines.
fn split_call(rt: &HostRuntime, card: &[u8], numbers: &[u16], held: Held) -> io::Result<Held> {
    let Some((length, rest)) = numbers.split_first() else {
        return Ok(held);
    };
    let Some((order, row)) = rest.split_at_checked(usize::from(*length)) else {
        return Ok(held);
    };
    called(rt, card, order, row, held)
}

// A row call of both runners, of 300 numbers at most.
pub fn put_call(rt: &HostRuntime, card: &[u8], body: &[u8], held: Held) -> io::Result<Held> {
    let mut numbers = [0; 300];
    let n = numbers_in(body, &mut numbers);
    split_call(rt, card, &numbers[..n], held)
}

// An entry of both states is set.
pub fn set_entry(body: &[u8], held: Held) -> Held {
    let field = Field::from(number_at(body, 0));
    let at = usize::from(number_at(body, 2));
    let value = 65536 * u32::from(number_at(body, 4)) + u32::from(number_at(body, 6));
    Held {
        flat: with_entry(held.flat, field, at, value),
        subnet: with_entry(held.subnet, field, at, value),
        number: held.number,
    }
}

// A refusal's number, and its bit or the length that is needed.
fn put_refusal(rt: &HostRuntime, number: u64, value: usize) -> io::Result<()> {
    put_text(rt, format_args!("flat no {number} {value}\n"))
}

// The flat card, put into a buffer of so many bytes that is filled with other bytes.
pub fn put_flat(rt: &HostRuntime, card: &[u8], body: &[u8]) -> io::Result<()> {
    let room = usize::from(number_at(body, 0));
    let mut buffer = [FILLER; BUFFER_BYTES];
    let out = &mut buffer[..room];
    match flatten(card, out) {
        Ok(n) => put_text(rt, format_args!("flat ok 0 {n}\n")),
        Err(why) => put_refusal(rt, why.number(), why.value()),
    }?;
    put(rt, out)?;
    put(rt, b"\n")
}
