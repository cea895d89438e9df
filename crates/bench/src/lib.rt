// Reader, check and rows for the benchmark in tests/bench, which calls them from Rust. An answer of reader or check is one number, and no enum,
// since that is what the C interface carries: three counts of 16 bits; or bit 47, then 7 bits for the fault and 40 for its position.
#![tactic(auto)]

mod rows;

use card::Counts;
use card::reader::read;
use card::room::with_table;
use hierarchy::check::check;

fn accepted(counts: Counts) -> u64 {
    let subnets = u64::from(counts.subnets) % 32768;
    4294967296 * subnets + 65536 * u64::from(counts.places) + u64::from(counts.transitions)
}

fn refused(number: u64, bit: usize) -> u64 {
    140737488355328 + 1099511627776 * (number % 128) + bit as u64 % 1099511627776
}

// An answer with a number above it.
fn topped(n: u16, answer: u64) -> u64 {
    281474976710656 * u64::from(n) + answer % 281474976710656
}

// What the reader answers, below the number of field i. It looks at the table, so that no compiler leaves the table out.
fn read_field_in(card: &[u8], i: usize, numbers: &mut [u16]) -> u64 {
    let answer = match read(card, numbers) {
        Ok(index) => accepted(index.counts()),
        Err(why) => refused(why.fault.number(), why.bit),
    };
    topped(numbers.get(i).copied().unwrap_or(0), answer)
}

#[unsafe(no_mangle)]
pub extern "C" fn read_field(card: &[u8], i: usize) -> u64 {
    with_table(card.len(), &mut |numbers| read_field_in(card, i, numbers))
}

// What the check answers.
#[unsafe(no_mangle)]
pub extern "C" fn check_card(card: &[u8]) -> u64 {
    match check(card) {
        Ok(counts) => accepted(counts),
        Err(why) => refused(why.fault.number(), why.bit),
    }
}
