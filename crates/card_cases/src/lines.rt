// The parts of the answers' lines.
use card::Counts;
use console::{put, put_text};
use std::io;

pub fn put_counts(rt: &HostRuntime, counts: Counts) -> io::Result<()> {
    let Counts {
        subnets,
        places,
        transitions,
    } = counts;
    put_text(rt, format_args!(" ok {subnets} {places} {transitions}"))
}

// A refusal's number, and its bit or the length that is needed.
pub fn put_refusal(rt: &HostRuntime, number: u64, value: usize) -> io::Result<()> {
    put_text(rt, format_args!(" no {number} {value}"))
}

pub fn put_length(rt: &HostRuntime, n: usize) -> io::Result<()> {
    put_text(rt, format_args!(" ok {n}"))
}

// The Adler-32 checksum.
fn adler(bytes: &[u8]) -> u64 {
    let mut low = 1;
    let mut high = 0;
    for &byte in bytes {
        low = (low + u64::from(byte)) % 65521;
        high = (high + low) % 65521;
    }
    65536 * high + low
}

// Bytes in hexadecimal, or their checksum where there are many.
pub fn put_bytes(rt: &HostRuntime, bytes: &[u8]) -> io::Result<()> {
    put(rt, b" ")?;
    if 64 < bytes.len() {
        return put_text(rt, adler(bytes));
    }
    for &byte in bytes {
        put_text(rt, format_args!("{byte:02x}"))?;
    }
    Ok(())
}
