// A rows file as the run program answers it, block after block.
ghost use Rattle.std.specs.Prelude.{◌≡◌, ◌*◌, ◌≤◌, length};
ghost use Rattle.programs.specs.Lines.{longest};

use crate::lines::put_line;
use console::put_first;
use programs::blocks::{BLOCK_BYTES, CardRun, LINES_BYTES, begin};
use std::io;

// Asks for the room without which `answer_block` takes nothing.
fn put_block(rt: &HostRuntime, run: &mut CardRun, block: &[u8], lines: &mut [u8]) -> io::Result<()>
    requires { longest * length block.now ≤ length lines.old }
    ensures { length lines.new ≡ length lines.old }
{
    let length = run.answer_block(block, lines);
    put_first(rt, lines, length)
}

fn put_blocks(rt: &HostRuntime, run: &mut CardRun, bytes: &[u8], lines: &mut [u8]) -> io::Result<()>
    requires { longest * 64 ≤ length lines.old }
{
    for block in bytes.chunks(BLOCK_BYTES) {
        put_block(rt, run, block, lines)?;
    }
    put_line(rt, run.last_line())
}

pub fn put_file(rt: &HostRuntime, card: &[u8], bytes: &[u8]) -> io::Result<()> {
    match begin(card) {
        Ok(mut run) => {
            let mut lines = [0; LINES_BYTES];
            put_blocks(rt, &mut run, bytes, &mut lines)
        }
        Err(line) => put_line(rt, line),
    }
}
