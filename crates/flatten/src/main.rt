// Reads a card from standard input and writes the flat card's bytes; of a refused card, one line: no, number, position. What is written is proved in
// crate `programs`; here it is read and written. Of a longer input the first INPUT_BYTES decide (flatten_reads in programs/proofs/LongCard.antt), so
// no more are read.
#![tactic(auto)]

use card::INPUT_BYTES;
use console::{put, read_input};
use programs::flat::flat_text;
use std::io;

fn main(rt: HostRuntime) -> io::Result<()> {
    let mut card = [0; INPUT_BYTES];
    let n = read_input(&rt, &mut card);
    put(&rt, flat_text(&card[..n]).as_slice())
}
