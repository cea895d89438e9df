// Runs the card in the file net.card on the rows of standard input, and prints the flat runner's answers, a line a row; of a refused card, one
// line: no, number, position. No such file: no bytes. What is written, block by block, is proved in crate `programs`; here it is read and written.
// Of a longer card the first INPUT_BYTES decide (run_reads in programs/proofs/LongCard.antt), so no more are read. A row is answered as soon as it
// is there, so that rows can come from a pipe that stays open.
#![tactic(auto)]

ghost use Rattle.std.specs.Prelude.{◌≡◌, ◌*◌, ◌≤◌, length};
ghost use Rattle.programs.specs.Lines.{longest};
ghost use Rattle.programs.specs.Runs.{fed_block, run_in, size_in, call_in};

use card::INPUT_BYTES;
use console::{put, put_first, read_file, read_some};
use programs::blocks::{BLOCK_BYTES, CardRun, LINES_BYTES, begin};
use std::io;

// Writes the lines of a block. It asks for the room without which `answer_block` takes nothing.
fn put_block(rt: &HostRuntime, run: &mut CardRun, block: &[u8], lines: &mut [u8]) -> io::Result<()>
    requires { longest * length block.now ≤ length lines.old }
    ensures lines_len_unchanged { length lines.new ≡ length lines.old }
    ensures behind { run_in run.new ≡ (fed_block (size_in run.old) (call_in run.old) (length lines.old) (run_in run.old) block.now).1 }
{
    let length = run.answer_block(block, lines);
    put_first(rt, lines, length)
}

// Ends where the input does, or where a block's lines cannot be written. Nothing says that an input ends, so the turns are counted, to a number
// that no run reaches.
fn put_blocks(
    rt: &HostRuntime,
    run: &mut CardRun,
    block: &mut [u8],
    lines: &mut [u8],
) -> io::Result<()>
    requires { longest * length block.old ≤ length lines.old }
{
    for _ in 0..u64::MAX {
        let n = read_some(rt, block);
        if n == 0 {
            return put(rt, run.last_line().as_slice());
        }
        put_block(rt, run, &block[..n], lines)?;
    }
    Ok(())
}

// A frame of its own, and so has `begin`: the tables that a card is loaded with are gone before the lines of a block have room.
#[inline(never)]
fn put_rows(rt: &HostRuntime, run: &mut CardRun) -> io::Result<()> {
    let mut block = [0; BLOCK_BYTES];
    let mut lines = [0; LINES_BYTES];
    put_blocks(rt, run, &mut block, &mut lines)
}

fn main(rt: HostRuntime) -> io::Result<()> {
    let mut card = [0; INPUT_BYTES];
    let n = read_file(&rt, b"net.card", &mut card);
    match begin(&card[..n]) {
        Ok(mut run) => put_rows(&rt, &mut run),
        Err(line) => put(&rt, line.as_slice()),
    }
}
