// A run as its input comes in: the card, then block after block of rows, then the end.
ghost use Rattle.std.specs.Prelude.{◌≡◌, ◌+◌, ◌*◌, ◌≤◌, ◌<◌, [], length, IfOk, IfErr};
ghost use Rattle.hierarchy.specs.Judgement.{Judgement};
ghost use Rattle.runners.specs.Nets.{IsNet};
ghost use Rattle.programs.specs.Feeds.{file_call};
ghost use Rattle.programs.specs.Lines.{longest};
ghost use Rattle.programs.specs.Runs.{answered, feed, last_line, fed_block, row_size_in, run_in, progress_in, size_in, call_in, IsBegun, IsTurnedBack, IsTaken, IsTurn};

use crate::feed::{file_row, net_file_row};
use crate::file::row_bytes;
use crate::line::{LONGEST, Line, reply_line, turned_back_line};
use card::text::Text;
use hierarchy::CardRefusal;
use runners::State;
use runners::flat_runner::flat_net;
use runners::fresh::fresh;
use runners::nets::Net;

// The most bytes that a row has.
const ROW_BYTES: usize = 79;

// Rows are counted from here.
const FIRST_ROW: u64 = 1;

// How many bytes the program run reads at most at once, and the room that their lines may take: the longest line for each.
pub const BLOCK_BYTES: usize = 64;

pub const LINES_BYTES: usize = LONGEST * BLOCK_BYTES;

// A card that is run row by row: the net of its flat card, the number of the next row, the state in front of it, and those of its bytes that are
// there. Only this crate looks into it.
#[derive(Clone, Copy)]
pub struct CardRun {
    net: Net,
    number: u64,
    state: State,
    left: Text<ROW_BYTES>,
}

// A run without its net, for what any card was loaded to: the number of the next row, the state in front of it, and those of its bytes that are
// there.
#[derive(Clone, Copy)]
pub struct Progress {
    number: u64,
    state: State,
    left: Text<ROW_BYTES>,
}

impl Progress {
    // In front of the first row, from any state. Two wrong ones that this rules out: one that begins with row 0, and one that begins with a byte of a
    // row.
    pub fn new(state: State) -> Progress
        ensures { progress_in result ≡ record { number = 1; state = state; left = [] } }
    {
        let left = Text::new();
        Progress {
            number: FIRST_ROW,
            state,
            left,
        }
    }
}

// A run in front of its first row, or of a refused card the one line that is written. Two wrong ones that this rules out: one that counts rows
// from 0, and one that runs a refused card.
#[inline(never)]
pub fn begin(card: &[u8]) -> Result<CardRun, Line>
    ensures begun { IfOk result (IsBegun card.now) }
    ensures turned_back { IfErr result (IsTurnedBack card.now) }
{
    let first = fresh(card).map_err(turned_back_line)?;
    // No `map_err`, which would keep one more net in this frame.
    match flat_net(card) {
        Ok(net) => Ok(CardRun::on(net, first.state)),
        Err(why) => Err(turned_back_line(why)),
    }
}

impl CardRun {
    // A run in front of its first row, on any net and from any state. Two wrong ones that this rules out: one that begins with row 0, and one that
    // begins with a byte of a row.
    pub fn on(net: Net, state: State) -> CardRun
        ensures net { result.net ≡ net }
        ensures run { run_in result ≡ record { number = 1; state = state; left = [] } }
    {
        CardRun {
            net,
            number: FIRST_ROW,
            state,
            left: Text::new(),
        }
    }

    // A run that goes on on this net. Two wrong ones that this rules out: one that begins again, and one that loses the bytes of a row that are there.
    pub fn resumed(net: Net, progress: Progress) -> CardRun
        ensures net { result.net ≡ net }
        ensures run { run_in result ≡ progress_in progress }
    {
        CardRun {
            net,
            number: progress.number,
            state: progress.state,
            left: progress.left,
        }
    }

    // Where the run stands. Two wrong ones that this rules out: one that counts the next row already, and one that loses the bytes that are there.
    pub fn progress(&self) -> Progress
        ensures { progress_in result ≡ run_in self.now }
    {
        Progress {
            number: self.number,
            state: self.state,
            left: self.left,
        }
    }

    // The same run on another net. Two wrong ones that this rules out: one that begins again, and one that keeps the net.
    pub fn over(&self, net: Net) -> CardRun
        ensures net { result.net ≡ net }
        ensures run { run_in result ≡ run_in self.now }
    {
        CardRun { net, ..*self }
    }

    // A block of the input, in a buffer that has room for the longest line for each of its bytes; of another nothing is taken. It answers how
    // many bytes the lines have, which stand at the buffer's front, and no slice: what a buffer holds that is lent on takes a clause that is proved
    // by hand. Two wrong ones that this rules out: one that keeps or prints the state in front of a row, and one that loses the bytes of a row
    // that two blocks share.
    pub fn answer_block(&mut self, block: &[u8], out: &mut [u8]) -> usize
        ensures turn { IsTurn (fed_block (size_in self.old) (call_in self.old) (length out.old) (run_in self.old) block.now) out.old result self.new out.new }
        ensures same_net { self.new.net ≡ self.old.net }
        ensures out_len_unchanged { length out.new ≡ length out.old }
    {
        let size = row_bytes(self.net.signals());
        if out.len() / LONGEST < block.len() {
            return 0;
        }
        if size <= self.left.len() {
            return 0;
        }
        if ROW_BYTES < size {
            return 0;
        }
        self.answer_all(size, block, out)
    }

    // All bytes of a block, the lines one after another.
    fn answer_all(&mut self, size: usize, block: &[u8], out: &mut [u8]) -> usize
        requires part_of_a_row { length self.old.left < size }
        requires fits { size ≤ 79 }
        requires room { longest * length block.now ≤ length out.old }
        ensures turn { IsTurn (feed size (call_in self.old) (run_in self.old) block.now) out.old result self.new out.new }
        ensures same_net { self.new.net ≡ self.old.net }
        ensures out_len_unchanged { length out.new ≡ length out.old }
    {
        let mut written = 0;
        for byte in block {
            self.left.push(*byte);
            if self.left.len() == size {
                let line = self.answer_row();
                let end = written + line.len();
                out[written..end].copy_from_slice(line.as_slice());
                written = end;
            }
        }
        written
    }

    // The row that is there, answered: its line, and then the run is in front of the next row.
    fn answer_row(&mut self) -> Line
        ensures line { result ≡ (answered (call_in self.old) (run_in self.old)).0 }
        ensures next { run_in self.new ≡ (answered (call_in self.old) (run_in self.old)).1 }
        ensures same_net { self.new.net ≡ self.old.net }
        ensures no_bytes { length self.new.left ≡ 0 }
    {
        let answer = file_row(&self.net, self.state, self.left.as_slice());
        let line = reply_line(self.number, answer.reply, &answer.state);
        self.number = self.number.saturating_add(1);
        self.state = answer.state;
        self.left = Text::new();
        line
    }

    // The end of the input. Two wrong ones that this rules out: one that drops a short last row, and one that prints a line where no byte is left.
    pub fn last_line(&self) -> Line
        ensures { result ≡ last_line (call_in self.now) (run_in self.now) }
    {
        if self.left.is_empty() {
            return Line::new();
        }
        let answer = file_row(&self.net, self.state, self.left.as_slice());
        reply_line(self.number, answer.reply, &answer.state)
    }
}

// A block on what a card was loaded to; of a refused card nothing is taken. Two wrong ones that this rules out: one that tells lines of a refused card,
// and one that leaves the run in front of the block.
pub fn net_answer_block(
    net: &Result<Net, CardRefusal>,
    progress: &mut Progress,
    block: &[u8],
    out: &mut [u8],
) -> usize
    ensures turn { (j : Judgement) → IsNet j net.now → IsTaken (fed_block (row_size_in j) (file_call j) (length out.old) (progress_in progress.old) block.now) out.old result (progress_in progress.new) out.new }
    ensures out_len_unchanged { length out.new ≡ length out.old }
{
    match net {
        Ok(net) => {
            let mut run = CardRun::resumed(*net, *progress);
            let length = run.answer_block(block, out);
            *progress = run.progress();
            length
        }
        Err(_refusal) => 0,
    }
}

// The end of the input on what a card was loaded to; of a refused card a short last row gets its refusal. Two wrong ones that this rules out: one that
// takes the last row of a refused card, and one that prints a line where no byte is left.
pub fn net_last_line(net: &Result<Net, CardRefusal>, progress: &Progress) -> Line
    ensures { (j : Judgement) → IsNet j net.now → result ≡ last_line (file_call j) (progress_in progress.now) }
{
    if progress.left.is_empty() {
        return Line::new();
    }
    let answer = net_file_row(net, progress.state, progress.left.as_slice());
    reply_line(progress.number, answer.reply, &answer.state)
}
