// Runs both runners on the card in the file net.card and the calls of standard input, and prints whether they agree: yes or no; of a refused
// card, one line: no, number, position. No such file: no bytes. A call is a row as in a rows file, and then the visiting order, a byte a
// subnet. Of the calls the first 65,536 bytes are read; of a longer card the first INPUT_BYTES decide (long_input in card/proofs/LongInput.antt).
#![tactic(auto)]

use card::INPUT_BYTES;
use console::{put, read_file, read_input};
use hierarchy::check::check;
use programs::agree::agree;
use programs::line::turned_back_line;
use std::io;

fn put_agreed(rt: &HostRuntime, yes: bool) -> io::Result<()> {
    if yes {
        return put(rt, b"yes\n");
    }
    put(rt, b"no\n")
}

fn put_answer(rt: &HostRuntime, card: &[u8], calls: &[u8]) -> io::Result<()> {
    match check(card) {
        Ok(_counts) => put_agreed(rt, agree(card, calls)),
        Err(refusal) => put(rt, turned_back_line(refusal).as_slice()),
    }
}

fn main(rt: HostRuntime) -> io::Result<()> {
    let mut card = [0; INPUT_BYTES];
    let mut calls = [0; 65536];
    let n = read_file(&rt, b"net.card", &mut card);
    let m = read_input(&rt, &mut calls);
    put_answer(&rt, &card[..n], &calls[..m])
}
