// The runner as a library for C and Rust: the entry points of the layers on numbers and slices. Every function takes any slices and answers 0
// or the number of a refusal, with its value in a lent number; a refusal leaves every lent slice as it was. net_runner.h declares them for C.
#![tactic(auto)]

mod counts;
mod lending;
mod told;

ghost use Rattle.std.specs.Prelude.{◌≡◌};
ghost use Rattle.hierarchy.specs.Judgement.{judge, answer};
ghost use Rattle.hierarchy.specs.Output.{write_rows};
ghost use Rattle.flattening.specs.Flattening.{flatten_call};
ghost use Rattle.net_runner.specs.Told.{check_told, counts_told, head_in, IsTold, IsPut};
ghost use Rattle.net_runner.specs.Slices.{slices, fresh_on, flat_on, subnet_on, IsCalled};

use card::{Head, Rows};
use counts::check_into;
use flattening::flatten;
use hierarchy::write::write;
use lending::Lent;
use told::{Told, tell};

// The check. Two wrong ones that this rules out: one that stores counts of a refused card, and one whose counts are those of the header.
#[unsafe(no_mangle)]
pub extern "C" fn net_check(card: &[u8], counts: &mut [usize; 4], value: &mut usize) -> u64
    ensures told { IsTold (check_told (answer card.now)) result value.new }
    ensures counts_after { counts.new ≡ counts_told (judge card.now) counts.old }
{
    tell(check_into(card, counts), value)
}

// Flattening into a lent buffer. Two wrong ones that this rules out: one that writes what fits of a card that does not, and one that answers
// with the length of the card that it was given.
#[unsafe(no_mangle)]
pub extern "C" fn net_flatten(card: &[u8], out: &mut [u8], value: &mut usize) -> u64
    ensures { IsPut (flatten_call card.now out.old) result value.new out.new }
{
    tell(flatten(card, out).map_err(Told::from), value)
}

// A card written from tables into a lent buffer. Two wrong ones that this rules out: one that writes a card which the check turns back, and
// one that tells a short buffer before 17.
#[unsafe(no_mangle)]
pub extern "C" fn net_write(
    header: &[u16; 4],
    subnets: &[u16],
    places: &[u16],
    transitions: &[u16],
    arcs: &[u16],
    out: &mut [u8],
    value: &mut usize,
) -> u64
    ensures { IsPut (write_rows (head_in header.now) subnets.now places.now transitions.now arcs.now out.old) result value.new out.new }
{
    let [version, signals, limit, scale] = *header;
    let head = Head {
        version,
        signals,
        limit,
        scale,
    };
    let rows = Rows {
        subnets,
        places,
        transitions,
        arcs,
    };
    tell(write(head, &rows, out).map_err(Told::from), value)
}

// The fresh state of a card. Two wrong ones that this rules out: one that fills what there is of slices that are too short, and one that
// stores 0 for an idle transition.
#[unsafe(no_mangle)]
pub extern "C" fn net_fresh(
    card: &[u8],
    markings: &mut [u32],
    transfers: &mut [u16],
    degrees: &mut [u16],
    value: &mut usize,
) -> u64
    ensures { IsCalled (fresh_on card.now (slices markings.old transfers.old degrees.old)) result value.new markings.new transfers.new degrees.new }
{
    let mut lent = Lent {
        markings,
        transfers,
        degrees,
    };
    tell(lent.fresh(card), value)
}

// A row on the flat net. Two wrong ones that this rules out: one that takes a progress of 0 for idle, and one that stores the next markings
// where the row is refused.
#[unsafe(no_mangle)]
pub extern "C" fn net_flat_row(
    card: &[u8],
    markings: &mut [u32],
    transfers: &mut [u16],
    degrees: &mut [u16],
    row: &[u16],
    value: &mut usize,
) -> u64
    ensures { IsCalled (flat_on card.now (slices markings.old transfers.old degrees.old) row.now) result value.new markings.new transfers.new degrees.new }
{
    let mut lent = Lent {
        markings,
        transfers,
        degrees,
    };
    tell(lent.flat_row(card, row), value)
}

// A row subnet by subnet. Two wrong ones that this rules out: one that tests the order in front of the state, and one that tells 25 of a
// state that is too long in front of the card's own refusal.
#[unsafe(no_mangle)]
pub extern "C" fn net_subnet_row(
    card: &[u8],
    markings: &mut [u32],
    transfers: &mut [u16],
    degrees: &mut [u16],
    order: &[u16],
    row: &[u16],
    value: &mut usize,
) -> u64
    ensures { IsCalled (subnet_on card.now order.now (slices markings.old transfers.old degrees.old) row.now) result value.new markings.new transfers.new degrees.new }
{
    let mut lent = Lent {
        markings,
        transfers,
        degrees,
    };
    tell(lent.subnet_row(card, order, row), value)
}
