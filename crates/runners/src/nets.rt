// A card that is loaded once, for many rows.
ghost use Rattle.std.specs.Prelude.{◌≡◌, ◌≤◌};
ghost use Rattle.card.specs.Card.{Card};
ghost use Rattle.card.specs.Index.{starts_of};
ghost use Rattle.card.specs.View.{card_in, Holds};
ghost use Rattle.hierarchy.specs.Conditions.{Meets};
ghost use Rattle.hierarchy.specs.Judgement.{Judgement, accepted, judge};
ghost use Rattle.runners.specs.Calls.{called, in_order};
ghost use Rattle.runners.specs.Rows.{pieces};
ghost use Rattle.runners.specs.Answers.{IsRow};
ghost use Rattle.runners.specs.Nets.{signals_in, IsNet, leaves, rows_in};
ghost use Rattle.runners.specs.inner.Markings.{capacity, Filled};

use crate::places::{Capacity, by_place};
use crate::row::{NetView, called_row, loaded_row, tested};
use crate::{Refusal, RowAnswer, State};
use card::index::CardIndex;
use card::view::CardView;
use card::{MOST_PLACES, TABLE};
use hierarchy::CardRefusal;
use hierarchy::check::load;
use std::marker::Model;

// An accepted card: its numbers, their index, and the full marking of each place.
#[derive(Clone, Copy)]
pub struct Net {
    numbers: [u16; TABLE],
    index: CardIndex,
    full: [u32; MOST_PLACES],
}

impl Model for Net {
    ghost use Rattle.card.specs.Card.{Card};
    ghost use Rattle.card.specs.View.{card_in};
    ghost use Rattle.card.specs.Tables.{table_size, numbers_table};
    ghost use Rattle.runners.specs.inner.Fields.{IsWhole, index_of, full_markings, numbers_back, index_back, full_back};

    ghost Value = { Card };

    ghost view = { λ n. card_in n.numbers };

    ghost invariant = { λ n. IsWhole (card_in n.numbers) n.numbers n.index n.full };

    ghost inverse = { λ c. record { numbers = numbers_table table_size c; index = index_of c; full = full_markings c } };

    ghost inverse_ok = { λ n h i. record {
      numbers = numbers_back (card_in n.numbers) n.numbers n.index n.full h i;
      index = index_back (card_in n.numbers) n.numbers n.index n.full h i;
      full = full_back (card_in n.numbers) n.numbers n.index n.full h i;
    } };
}

impl Net {
    // The net of a card's numbers and an index of theirs, which is made again: what it has where the card has no rows is not known. Two wrong ones that
    // this rules out: one that makes the index of one subnet, and one that holds no numbers.
    #[tactic(auto, using(crate::proofs::NetLaws::whole_holds))]
    pub fn new(numbers: [u16; TABLE], index: CardIndex) -> Net
        requires holds { Holds (card_in numbers) numbers index }
        requires meets { Meets (card_in numbers) }
        ensures { result ≡ card_in numbers }
    {
        Net::whole(numbers, card::index::index(&numbers, index.counts()))
    }

    // The net of a card's numbers and their whole index. Two wrong ones that this rules out: one that holds first tokens for capacities, and one that
    // holds no numbers.
    pub(crate) fn whole(numbers: [u16; TABLE], index: CardIndex) -> Net
        requires holds { Holds (card_in numbers) numbers index }
        requires meets { Meets (card_in numbers) }
        requires starts { index.starts ≡ starts_of (card_in numbers) }
        ensures { result ≡ card_in numbers }
    {
        let full = by_place::<Capacity>(&index.view(&numbers));
        Net {
            numbers,
            index,
            full,
        }
    }

    pub fn card(&self) -> CardView<'_>
        ensures { result ≡ self.now }
    {
        self.index.view(&self.numbers)
    }

    // The card with its full markings, for the step.
    fn view(&self) -> NetView<'_>
        ensures { result ≡ self.now }
    {
        NetView::new(self.card(), &self.full)
    }

    // How many signals the net's card has. Two wrong ones that this rules out: one that tells its places, and one that tells none.
    pub fn signals(&self) -> u16
        ensures value { result ≡ self.now.signals }
        ensures few { result ≤ 63 }
    {
        self.card().signals()
    }

    // A row call on a net: 25, 23, 20, 21, 22. Two wrong ones that this rules out: one that takes the state for valid, and one that takes the order
    // for valid.
    pub fn row(&self, order: &[u16], state: State, row: &[u16]) -> RowAnswer
        ensures { IsRow (called (in_order order.now) (accepted self.now) state row.now) result }
    {
        RowAnswer::new(state, called_row(&self.view(), order, &state, row))
    }

    // Many rows in one list, and the state that they leave. The state and the order are tested once. Two wrong ones that this rules out: one that
    // stops at a refused row, and one that drops a last row that is cut short before it is tested.
    pub fn rows(&self, order: &[u16], state: State, rows: &[u16]) -> State
        ensures { result ≡ leaves (called (in_order order.now) (accepted self.now)) state (pieces self.now.signals rows.now) }
    {
        let net = self.view();
        if tested(&net, order, &state).is_err() {
            return state;
        }
        let mut left = state;
        for row in rows.chunks(net.card().signals() as usize) {
            if let Ok(next) = loaded_row(&net, order, &left, row) {
                left = next;
            }
        }
        left
    }
}

// The net of a card, or its refusal. Two wrong ones that this rules out: one that loads a refused card, and one that forgets the capacities.
#[tactic(auto, using(crate::proofs::NetLaws::loaded_meets, crate::proofs::NetLaws::loaded_starts))]
pub fn card_net(card: &[u8]) -> Result<Net, CardRefusal>
    ensures { IsNet (judge card.now) result }
{
    let mut numbers = [0; TABLE];
    let index = load(card, &mut numbers)?;
    Ok(Net::whole(numbers, index))
}

// The same calls on what `card_net` or `flat_net` answered, a refusal too. How many signals the card has; none, of a refused one. Two wrong ones
// that this rules out: one that tells its places, and one that tells a signal of a refused card.
pub fn net_signals(net: &Result<Net, CardRefusal>) -> u16
    ensures { (j : Judgement) → IsNet j net.now → result ≡ signals_in j }
{
    match net {
        Ok(net) => net.signals(),
        Err(_) => 0,
    }
}

// A row call: the card's own refusal, 25, 23, 20, 21, 22. Two wrong ones that this rules out: one that takes a row on a refused card, and one that
// turns it back with 25.
pub fn net_row(
    net: &Result<Net, CardRefusal>,
    order: &[u16],
    state: State,
    row: &[u16],
) -> RowAnswer
    ensures { (j : Judgement) → IsNet j net.now → IsRow (called (in_order order.now) j state row.now) result }
{
    match net {
        Ok(net) => net.row(order, state, row),
        Err(refusal) => RowAnswer::new(state, Err(Refusal::BadCard(*refusal))),
    }
}

// Many rows in one list, and the state that they leave; a refused card leaves it as it was. Two wrong ones that this rules out: one that clears
// the markings there, and one that hands the first row alone on.
#[tactic(auto, unfolding(crate::specs::Nets::leaves))]
pub fn net_rows(net: &Result<Net, CardRefusal>, order: &[u16], state: State, rows: &[u16]) -> State
    ensures { (j : Judgement) → IsNet j net.now → result ≡ leaves (called (in_order order.now) j) state (rows_in j rows.now) }
{
    match net {
        Ok(net) => net.rows(order, state, rows),
        Err(_) => state,
    }
}
