// Standard input, standard output and files, as the programs read and write them; cases.rt has the cases of the tests. No contract can say
// which bytes the operating system hands over or takes. So that of a read is about lengths: it answers how many bytes it has put at the
// buffer's start, which is at most the buffer's length, and that length is kept. It hands out no slice of the buffer: what a buffer holds that is
// lent on takes a clause that is proved by hand. A function that only writes has none; its error is handed on to `main`, so that a program ends
// where nobody reads on. "Ruled out" names wrong programs that a contract refuses.
#![tactic(auto)]

pub mod cases;

ghost use Rattle.std.specs.Prelude.{◌≡◌, length};
ghost use Rattle.io.specs.Counts.{IsPrefixLen};

use std::fmt::Display;
use std::fs::File;
use std::io::{Print, Read};
use std::{fs, io};

// Reads once; no bytes where the read fails.
fn read_once<R: Read>(source: &mut R, buffer: &mut [u8]) -> usize
    ensures prefix_len { IsPrefixLen result buffer.new }
    ensures buffer_len_unchanged { length buffer.new ≡ length buffer.old }
{
    source.read(buffer).unwrap_or(0)
}

// Reads until the buffer is full, the source ends or a read fails. `read_exact` does not say how many bytes came before the end, and `read_to_end`
// takes a heap, so that the reads are counted here.
fn read_full<R: Read>(source: &mut R, buffer: &mut [u8]) -> usize
    ensures prefix_len { IsPrefixLen result buffer.new }
    ensures buffer_len_unchanged { length buffer.new ≡ length buffer.old }
{
    let mut done = 0;
    while done < buffer.len() {
        let n = read_once(source, &mut buffer[done..]);
        if n == 0 {
            return done;
        }
        done += n;
    }
    done
}

// The file of that name, if it can be opened. The library opens names of UTF-8 alone.
fn opened(rt: &HostRuntime, name: &[u8]) -> Option<File> {
    let text = str::from_utf8(name).ok()?;
    fs::open(rt, text).ok()
}

// Reads a file from its start until the buffer is full or the file ends; no bytes where there is no such file. Ruled out: the length of a
// file that is longer than the buffer; a byte of a file that is not there, which a buffer of no bytes has no room for.
pub fn read_file(rt: &HostRuntime, name: &[u8], buffer: &mut [u8]) -> usize
    ensures prefix_len { IsPrefixLen result buffer.new }
    ensures buffer_len_unchanged { length buffer.new ≡ length buffer.old }
{
    let Some(mut file) = opened(rt, name) else {
        return 0;
    };
    read_full(&mut file, buffer)
}

// Reads standard input until the buffer is full or the input ends. Ruled out: one more than was read, for the newline; 65,536 whatever the
// buffer is.
pub fn read_input(rt: &HostRuntime, buffer: &mut [u8]) -> usize
    ensures prefix_len { IsPrefixLen result buffer.new }
    ensures buffer_len_unchanged { length buffer.new ≡ length buffer.old }
{
    read_full(&mut rt.stdin(), buffer)
}

// Reads what is there of standard input: at least a byte unless the input has ended, the read has failed or the buffer is empty. Ruled out: the
// count of a read into a larger buffer of its own; a byte where a read has failed.
pub fn read_some(rt: &HostRuntime, buffer: &mut [u8]) -> usize
    ensures prefix_len { IsPrefixLen result buffer.new }
    ensures buffer_len_unchanged { length buffer.new ≡ length buffer.old }
{
    read_once(&mut rt.stdin(), buffer)
}

pub fn put(rt: &HostRuntime, text: &[u8]) -> io::Result<()> {
    rt.write_all(text)
}

// The first n bytes; nothing if there are fewer.
pub fn put_first(rt: &HostRuntime, bytes: &[u8], n: usize) -> io::Result<()> {
    match bytes.get(..n) {
        Some(front) => put(rt, front),
        None => Ok(()),
    }
}

// What a format makes, as `format_args!(" ok {n}")`.
pub fn put_text<D: Display + Drop>(rt: &HostRuntime, text: D) -> io::Result<()> {
    rt.print(text)
}
