// The answers of the two writers to tables, each with a buffer that is filled with other bytes, all of which are shown.
use crate::lines::{put_bytes, put_length, put_refusal};
use crate::tables::Tables;
use card::writer::{put_card, spell};
use console::cases::{BUFFER_BYTES, FILLER};
use console::{put, put_text};
use hierarchy::write::write;
use std::io;

// The length of a card, whether the buffer has room for it, and the buffer.
fn put_into(rt: &HostRuntime, card: &[u8], room: usize) -> io::Result<()> {
    let mut buffer = [FILLER; BUFFER_BYTES];
    let out = &mut buffer[..room.min(BUFFER_BYTES)];
    let n = card.len();
    if put_card(card, out) {
        put_length(rt, n)?;
    } else {
        put_text(rt, format_args!(" short {n}"))?;
    }
    put_bytes(rt, out)
}

fn put_spelt(rt: &HostRuntime, t: Tables) -> io::Result<()> {
    put(rt, b"spell")?;
    match spell(t.head, &t.rows) {
        Ok(card) => put_into(rt, card.as_slice(), t.room),
        Err(refusal) => put_refusal(rt, refusal.fault.number(), refusal.bit),
    }?;
    put(rt, b"\n")
}

fn put_written(rt: &HostRuntime, t: Tables) -> io::Result<()> {
    put(rt, b"write")?;
    let mut buffer = [FILLER; BUFFER_BYTES];
    let out = &mut buffer[..t.room.min(BUFFER_BYTES)];
    match write(t.head, &t.rows, out) {
        Ok(n) => put_length(rt, n),
        Err(refusal) => put_refusal(rt, refusal.number(), refusal.value()),
    }?;
    put_bytes(rt, out)?;
    put(rt, b"\n")
}

pub fn put_writers(rt: &HostRuntime, t: Tables) -> io::Result<()> {
    put_spelt(rt, t)?;
    put_written(rt, t)
}
