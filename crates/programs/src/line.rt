// The line of a reply, and that of a refused card. They are put together in a text of fixed room and not by `write!`, whose answer a caller would
// have to look at: a line cannot fail.
ghost use Rattle.std.specs.Prelude.{◌≡◌, ◌+◌, ◌≤◌, ◌∷◌, ◌++◌, length, map, take};
ghost use Rattle.std.proofs.Math.Option.{none, some};
ghost use Rattle.hierarchy.specs.Numbers.{number};
ghost use Rattle.runners.specs.Numbers.{row_outcome};
ghost use Rattle.runners.specs.Calls.{view};
ghost use Rattle.card.specs.Text.{decimal};
ghost use Rattle.programs.specs.Text.{line};
ghost use Rattle.programs.specs.Programs.{reply_words, state_words, refusal_words, card_line};
ghost use Rattle.programs.specs.Lines.{longest, spaced, joined, transfer_word};

use card::text::Text;
use hierarchy::CardRefusal;
use runners::{Refusal, State, Transfer};

// The bytes of the longest line: a row number of 20 digits, 255 markings of 10 digits, 255 progresses of 5, a space before each, ok, bar and
// newline.
pub const LONGEST: usize = 4361;

// A line, newline and all.
pub type Line = Text<LONGEST>;

// A space and a number.
fn put_number(line: &mut Line, n: u64)
    ensures { line.new ≡ take longest (line.old ++ 32 ∷ decimal n) }
{
    line.push(b' ');
    line.push_decimal(n);
}

// A space and a marking, which has at most 10 digits.
fn put_marking(line: &mut Line, marking: u32)
    ensures word { line.new ≡ take longest (line.old ++ 32 ∷ decimal marking) }
    ensures short { length line.new ≤ length line.old + 11 }
{
    put_number(line, marking as u64);
}

// A space and a progress, which has at most 5 digits; an idle transition has a minus.
fn put_transfer(line: &mut Line, transfer: Transfer)
    ensures word { line.new ≡ take longest (line.old ++ 32 ∷ transfer_word transfer) }
    ensures short { length line.new ≤ length line.old + 6 }
{
    match transfer {
        Transfer::Idle => line.extend_from_slice(b" -"),
        Transfer::Carrying(progress) => put_number(line, progress as u64),
    }
}

fn put_markings(line: &mut Line, state: &State)
    requires { length line.old ≤ longest }
    ensures words { line.new ≡ take longest (line.old ++ spaced (map decimal (view state.now).markings)) }
    ensures short { length line.new ≤ length line.old + 2805 }
{
    for marking in state.markings() {
        put_marking(line, *marking);
    }
}

fn put_transfers(line: &mut Line, state: &State)
    requires { length line.old ≤ longest }
    ensures words { line.new ≡ take longest (line.old ++ spaced (map transfer_word (view state.now).transfers)) }
    ensures short { length line.new ≤ length line.old + 1530 }
{
    for transfer in state.transfers() {
        put_transfer(line, *transfer);
    }
}

// The words of a state: ok, its markings, a bar and its transfers.
fn put_state(line: &mut Line, state: &State)
    ensures words { line.new ≡ take longest (line.old ++ joined (state_words (view state.now))) }
    ensures short { length line.new ≤ length line.old + 4339 }
{
    line.extend_from_slice(b"ok");
    put_markings(line, state);
    line.extend_from_slice(b" |");
    put_transfers(line, state);
}

// The words of a refusal that has no value, and of one that has.
fn put_refusal(line: &mut Line, number: u64)
    ensures words { line.new ≡ take longest (line.old ++ joined (refusal_words number none)) }
    ensures short { length line.new ≤ length line.old + 23 }
{
    line.extend_from_slice(b"no");
    put_number(line, number);
}

fn put_refusal_at(line: &mut Line, number: u64, value: u64)
    ensures words { line.new ≡ take longest (line.old ++ joined (refusal_words number (some value))) }
    ensures short { length line.new ≤ length line.old + 44 }
{
    put_refusal(line, number);
    put_number(line, value);
}

// The words of a reply, by the paper's numbers.
fn put_reply(line: &mut Line, reply: Result<(), Refusal>, state: &State)
    ensures words { line.new ≡ take longest (line.old ++ joined (reply_words (row_outcome reply) (view state.now))) }
    ensures short { length line.new ≤ length line.old + 4339 }
{
    let Err(why) = reply else {
        return put_state(line, state);
    };
    match why.value() {
        None => put_refusal(line, why.number()),
        Some(value) => put_refusal_at(line, why.number(), value as u64),
    }
}

// The line of row n. Two wrong ones that this rules out: one that prints fixed markings, and one that prints an idle transition as a
// progress of 0.
pub fn reply_line(n: u64, reply: Result<(), Refusal>, state: &State) -> Line
    ensures { result ≡ line (decimal n ∷ reply_words (row_outcome reply) (view state.now)) }
{
    let mut line = Line::new();
    line.push_decimal(n);
    line.push(b' ');
    put_reply(&mut line, reply, state);
    line.push(b'\n');
    line
}

// The line of a refusal that has a number and a value. Two wrong ones that this rules out: one that prints the value before the number, and one
// that leaves the value out.
pub fn refusal_line(number: u64, value: usize) -> Line
    ensures { result ≡ card_line number value }
{
    let mut line = Line::new();
    put_refusal_at(&mut line, number, value as u64);
    line.push(b'\n');
    line
}

// The one line of a card that is turned back. (No `From`: both types are of crates below.) Two wrong ones that this rules out: one that leaves the
// bit out, and one that prints the number of the format's faults for those of the hierarchy.
pub fn turned_back_line(refusal: CardRefusal) -> Line
    ensures { result ≡ card_line (number refusal.fault) refusal.bit }
{
    refusal_line(refusal.fault.number(), refusal.bit)
}
