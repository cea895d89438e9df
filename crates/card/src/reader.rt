// Reading a card: pass one, into a table of its numbers.
ghost use Rattle.std.specs.Prelude.{◌≡◌, true, ◌+◌, ◌*◌, ◌≤◌, length, replicate};
ghost use Rattle.card.specs.Parsing.{read_card, excess};
ghost use Rattle.card.specs.Tables.{card_bits, has_room, IsRead, IsTable, IsLent};
ghost use Rattle.card.specs.inner.Reader.{excess_of, arc_head_width, IsArcHead, ended_as, IsFilled};
ghost use Rattle.card.specs.declared.layout.Phase.TheVariants.{Direction};

use crate::bits::{bit_field, pow2};
use crate::index::{CardIndex, index};
use crate::layout::{
    Layout, Next, Phase, arc_head_width, arc_next, arc_step, start, step, width, width_at,
};
use crate::{Counts, FormatFault, FormatRefusal, TABLE};

// What follows a card that ends before bit end: its first nonzero fill bit, else the first bit of a further byte.
fn excess_at(card: &[u8], end: usize) -> Option<usize>
    requires { (end ≤ 8 * length card.now) × (end ≤ card_bits) }
    ensures { excess_of result ≡ excess card.now end }
{
    let bytes = (end + 7) / 8;
    (end..8 * bytes)
        .find(|i| bit_field(card, *i, 1) == 1)
        .or((bytes < card.len()).then_some(8 * bytes))
}

// An arc's fields before the weight, as the numbers that they are on the card: they go straight into its table.
#[derive(Clone, Copy)]
pub struct ArcHead {
    pub direction: u16,
    pub subnet: u16,
    pub place: u16,
}

// Says yes only where an arc comes next and all of its fields before the weight are there. Where these say no, the reader goes by `step`.
#[tactic(auto, unfolding(crate::specs::Grammar::arc))]
fn arc_ahead(l: Layout, at: usize, bytes: usize) -> bool
    requires { at ≤ card_bits }
    ensures { result ≡ true → (l.phase ≡ Direction) × (at + arc_head_width ≤ 8 * bytes) }
{
    if arc_next(l) {
        return (at + arc_head_width() + 7) / 8 <= bytes;
    }
    false
}

fn arc_head(card: &[u8], at: usize) -> ArcHead
    requires { at + arc_head_width ≤ 8 * length card.now }
    ensures { IsArcHead card.now at result }
{
    let v = bit_field(card, at, arc_head_width());
    let x = v as u32;
    let p = pow2(width_at(Phase::ArcPlace, 0));
    let q = pow2(width_at(Phase::ArcSubnet, 0));
    ArcHead {
        direction: (x / p / q) as u16,
        subnet: (x / p % q) as u16,
        place: (x % p) as u16,
    }
}

// The answer once the last field, which ends before bit end, is read.
fn ended(card: &[u8], end: usize, counts: Counts) -> Result<Counts, FormatRefusal>
    requires { (end ≤ 8 * length card.now) × (end ≤ card_bits) }
    ensures { result ≡ ended_as (excess card.now end) counts }
{
    match excess_at(card, end) {
        Some(bit) => Err(FormatRefusal {
            fault: FormatFault::BadFill,
            bit,
        }),
        None => Ok(counts),
    }
}

// Reads the fields of a card into a lent table of zeros. Of a card that is refused some numbers may stand there. The numbers are counted by hand:
// three fields of an arc are read at once, and the loop ends where the card does.
#[tactic(auto, using(crate::proofs::Turn::left_room, crate::proofs::Turn::left_fits, crate::proofs::Turn::arc_room), unfolding(crate::specs::Grammar::arc))]
fn read_fields(card: &[u8], numbers: &mut [u16]) -> Result<Counts, FormatRefusal>
    requires { (numbers.old ≡ replicate (length numbers.old) 0) × (has_room (length card.now) (length numbers.old) ≡ true) }
    ensures numbers_len_unchanged { length numbers.new ≡ length numbers.old }
    ensures filled { IsFilled (read_card card.now) result numbers.new }
{
    let mut l = start();
    let mut at = 0;
    let mut n = 0;
    loop {
        if arc_ahead(l, at, card.len()) {
            let h = arc_head(card, at);
            numbers[n] = h.direction;
            numbers[n + 1] = h.subnet;
            numbers[n + 2] = h.place;
            l = Layout {
                phase: Phase::Weight,
                ..l
            };
            at += arc_head_width();
            n += 3;
        } else {
            let w = width(l);
            if card.len() < (at + w + 7) / 8 {
                return Err(FormatRefusal {
                    fault: FormatFault::Truncated,
                    bit: at,
                });
            }
            let v = bit_field(card, at, w);
            numbers[n] = v;
            l = match arc_step(l) {
                Some(m) => m,
                None => match step(l, v) {
                    Ok(Next::More(m)) => m,
                    Ok(Next::Done(counts)) => return ended(card, at + w, counts),
                    Err(fault) => return Err(FormatRefusal { fault, bit: at }),
                },
            };
            at += w;
            n += 1;
        }
    }
}

// Whether a table of so many numbers has room for those of any card of so many bytes. Two wrong answers that this rules out: one that asks for
// the largest card's table always, and one that counts a byte for each number.
pub fn has_room(bytes: usize, size: usize) -> bool
    ensures { result ≡ has_room bytes size }
{
    if TABLE <= size {
        return true;
    }
    bytes <= size / 8
}

// Reads a card into a lent table that has room for it.
fn read_into(card: &[u8], numbers: &mut [u16]) -> Result<CardIndex, FormatRefusal>
    requires { has_room (length card.now) (length numbers.old) ≡ true }
    ensures numbers_len_unchanged { length numbers.new ≡ length numbers.old }
    ensures read { IsRead (read_card card.now) result }
    ensures table { IsTable (read_card card.now) (length numbers.old) numbers.new }
{
    numbers.fill(0);
    match read_fields(card, numbers) {
        Ok(counts) => Ok(index(numbers, counts)),
        Err(refusal) => {
            numbers.fill(0);
            Err(refusal)
        }
    }
}

// Reads a card, and leaves its numbers in a lent table, field after field with zeros behind them; of a refused card, zeros. A table that may be
// too small is left as it was. (The choice of the table is written out: of a function that is lent the step, a caller would have to be told what
// the step wrote in either.) Two wrong readers that this rules out: one that does not look at the fill bits, and one that leaves gaps
// between the numbers.
pub fn read(card: &[u8], numbers: &mut [u16]) -> Result<CardIndex, FormatRefusal>
    ensures numbers_len_unchanged { length numbers.new ≡ length numbers.old }
    ensures read { IsRead (read_card card.now) result }
    ensures lent { IsLent (read_card card.now) (has_room (length card.now) (length numbers.old)) numbers.old numbers.new }
{
    if has_room(card.len(), numbers.len()) {
        return read_into(card, numbers);
    }
    let mut own = [0; TABLE];
    read_into(card, &mut own)
}
