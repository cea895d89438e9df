// A state in lent slices: taken into the runners' own state, and handed back where a call was not refused.
ghost use Rattle.std.specs.Prelude.{◌≡◌, ◌≤◌, ◌↔◌, true, map, length, take};
ghost use Rattle.runners.specs.Numbers.{RowOutcome};
ghost use Rattle.runners.specs.Columns.{code_of, transfer_of};
ghost use Rattle.runners.specs.Answers.{IsRow};
ghost use Rattle.runners.specs.declared.State.{State as Own};
ghost use Rattle.net_runner.specs.Slices.{fresh_on, flat_on, subnet_on};
ghost use Rattle.net_runner.specs.Copies.{held, sized_as, taken_back, handed_back, Fits, Lends, IsLent, SameSlices, IsHanded};

use crate::told::Told;
use card::{MOST_PLACES, MOST_SIGNALS, MOST_TRANSITIONS};
use hierarchy::check::check;
use runners::flat_runner::flat_row;
use runners::fresh::fresh;
use runners::subnet_runner::subnet_row;
use runners::{Refusal, RowAnswer, State, Transfer};

// The slices that a caller lends: markings by flat place, the numbers of transfers by flat transition, and each signal's last degree.
#[derive(Drop)]
pub struct Lent<'a> {
    pub markings: &'a mut [u32],
    pub transfers: &'a mut [u16],
    pub degrees: &'a mut [u16],
}

// A slice's entries, and others behind them.
fn padded<T: Copy, const SIZE: usize>(entries: &[T], rest: T) -> [T; SIZE]
    ensures { length entries.now ≤ SIZE → take (length entries.now) result ≡ entries.now }
{
    let mut all = [rest; SIZE];
    let size = entries.len().min(SIZE);
    all[..size].copy_from_slice(&entries[..size]);
    all
}

// The first entries of a column, as many as a slice has. By index: `copy_from_slice` would call `memmove`, which callers in C need not have.
fn put<T: Copy>(entries: &[T], out: &mut [T])
    ensures { length out.old ≤ length entries.now → out.new ≡ take (length out.old) entries.now }
{
    let size = out.len().min(entries.len());
    for i in 0..size {
        out[i] = entries[i];
    }
}

// The transfers that have these numbers, and idle ones behind them. As many are turned as there are, here and below: `map` of the whole array costs a
// small card's call more than its row. By index: no contract of `iter_mut` beside another iterator says what it has afterwards.
fn transfers_of(codes: &[u16]) -> [Transfer; MOST_TRANSITIONS]
    ensures { length codes.now ≤ MOST_TRANSITIONS → take (length codes.now) result ≡ map transfer_of codes.now }
{
    let mut all = [Transfer::Idle; MOST_TRANSITIONS];
    let size = codes.len().min(MOST_TRANSITIONS);
    for i in 0..size {
        all[i] = Transfer::from(codes[i]);
    }
    all
}

// The numbers of the first transfers, as many as a slice has entries.
fn put_codes(transfers: &[Transfer], out: &mut [u16])
    ensures { length out.old ≤ length transfers.now → out.new ≡ map code_of (take (length out.old) transfers.now) }
{
    let size = out.len().min(transfers.len());
    for i in 0..size {
        out[i] = u16::from(transfers[i]);
    }
}

impl Lent<'_> {
    // Whether the slices have no more entries than a state.
    fn fits(&self) -> bool
        ensures { (result ≡ true) ↔ Fits (held self.now) }
    {
        self.markings.len() <= MOST_PLACES
            && self.transfers.len() <= MOST_TRANSITIONS
            && self.degrees.len() <= MOST_SIGNALS
    }

    // Whether they have as many entries as this state uses.
    fn is_sized_as(&self, state: &State) -> bool
        ensures { result ≡ sized_as state.now (held self.now) }
    {
        self.markings.len() == state.places
            && self.transfers.len() == state.transitions
            && self.degrees.len() == state.signals
    }

    // The state that they hold.
    #[tactic(auto, using(crate::proofs::SliceLaws::lends))]
    fn state(&self) -> State
        ensures { Fits (held self.now) → Lends (held self.now) result }
    {
        State {
            markings: padded(self.markings, 0),
            transfers: transfers_of(self.transfers),
            degrees: padded(self.degrees, 0),
            places: self.markings.len(),
            transitions: self.transfers.len(),
            signals: self.degrees.len(),
        }
    }

    // The same, for a row on this card. Of slices longer than those of any card, the card's own refusal, or 25.
    fn state_on(&self, card: &[u8]) -> Result<State, Refusal>
        ensures { IsLent card.now (held self.now) result }
    {
        if !self.fits() {
            check(card)?;
            return Err(Refusal::BadState);
        }
        Ok(self.state())
    }

    // Takes the numbers of a state, as many as the slices have entries.
    fn put(&mut self, state: &State)
        ensures same { SameSlices self.old self.new }
        ensures numbers { Fits (held self.old) → held self.new ≡ taken_back state.now (held self.old) }
    {
        put(&state.markings, self.markings);
        put_codes(&state.transfers, self.transfers);
        put(&state.degrees, self.degrees);
    }

    // The answer of a row call: the next state handed back, or a refusal and the slices as they were.
    fn hand_back(&mut self, answer: RowAnswer) -> Result<usize, Told>
        ensures { (x : RowOutcome × Own) → IsRow x answer → Fits (held self.old) → IsHanded (handed_back x (held self.old)) result self.old self.new }
    {
        answer.reply?;
        self.put(&answer.state);
        Ok(0)
    }

    // The fresh state of a card.
    pub fn fresh(&mut self, card: &[u8]) -> Result<usize, Told>
        ensures { IsHanded (fresh_on card.now (held self.old)) result self.old self.new }
    {
        let first = fresh(card)?;
        if !self.is_sized_as(&first.state) {
            return Err(Told::from(Refusal::BadState));
        }
        self.put(&first.state);
        Ok(0)
    }

    // A row on the flat net.
    pub fn flat_row(&mut self, card: &[u8], row: &[u16]) -> Result<usize, Told>
        ensures { IsHanded (flat_on card.now (held self.old) row.now) result self.old self.new }
    {
        let state = self.state_on(card)?;
        self.hand_back(flat_row(card, state, row))
    }

    // A row subnet by subnet.
    pub fn subnet_row(&mut self, card: &[u8], order: &[u16], row: &[u16]) -> Result<usize, Told>
        ensures { IsHanded (subnet_on card.now order.now (held self.old) row.now) result self.old self.new }
    {
        let state = self.state_on(card)?;
        self.hand_back(subnet_row(card, state, order, row))
    }
}
