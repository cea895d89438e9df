// A row on a card, subnet by subnet: the tests in front of the step, and the step. Nothing here, nor in what it calls, makes a flat card; the flat
// runner hands in its flat card as any card.
ghost use Rattle.std.specs.Prelude.{◌≡◌, true, ◌≤◌, length};
ghost use Rattle.std.proofs.Math.Option.{none, map};
ghost use Rattle.card.specs.Finite.{some_unless, ◌otherwise◌};
ghost use Rattle.hierarchy.specs.Conditions.{Meets};
ghost use Rattle.hierarchy.specs.Judgement.{accepted};
ghost use Rattle.flattening.specs.Flattening.{flatten};
ghost use Rattle.runners.specs.Step.{conflict, next};
ghost use Rattle.runners.specs.Rows.{settle, effective as effective_of, row_fault, row_next, row_conflict, row_refusal};
ghost use Rattle.runners.specs.Calls.{view, store, valid, each_once, called, in_order};
ghost use Rattle.runners.specs.Answers.{IsRow};
ghost use Rattle.runners.specs.inner.Markings.{capacity, Filled};
ghost use Rattle.runners.specs.inner.Steps.{with_degrees, answer_of, refusal_in};
ghost use Rattle.runners.specs.declared.Refusal.TheVariants.{BadState, BadOrder, Conflict};

use crate::guards::{row_test, state_test};
use crate::order::order_test;
use crate::verdict::uncovered;
use crate::visits::{Finding, Moving, Posting, visit_all};
use crate::work::Work;
use crate::{Refusal, RowAnswer, State};
use card::MOST_SIGNALS;
use card::view::CardView;
use std::marker::Model;

// An accepted card, and the full marking of each of its places.
#[derive(Drop)]
pub struct NetView<'a> {
    card: CardView<'a>,
    full: &'a [u32],
}

impl<'a> Model for NetView<'a> {
    ghost use Rattle.card.specs.Card.{Card};
    ghost use Rattle.runners.specs.inner.Steps.{HoldsNet};

    ghost Value = { Card };

    ghost view = { λ n. n.card };

    ghost invariant = { λ n. HoldsNet n.card n.full.now };
}

impl<'a> NetView<'a> {
    pub fn new(card: CardView<'a>, full: &'a [u32]) -> NetView<'a>
        requires meets { Meets card }
        requires filled { Filled capacity card full.now }
        ensures { result ≡ card.entry }
    {
        NetView { card, full }
    }

    pub fn card(&self) -> &CardView<'a>
        ensures value { result.now ≡ self.now }
        ensures meets { Meets self.now }
    {
        &self.card
    }

    pub fn full(&self) -> &[u32]
        ensures { Filled capacity self.now result.now }
    {
        self.full
    }
}

impl RowAnswer {
    // A call's answer: the next state, or the refusal and the state as it was.
    pub(crate) fn new(state: State, next: Result<State, Refusal>) -> RowAnswer
        ensures { IsRow (answer_of state next) result }
    {
        match next {
            Ok(next) => RowAnswer {
                reply: Ok(()),
                state: next,
            },
            Err(why) => RowAnswer {
                reply: Err(why),
                state,
            },
        }
    }
}

// The new degrees become the last ones.
fn record_degrees(state: &mut State, row: &[u16])
    requires { length row.now ≤ MOST_SIGNALS }
    ensures { state.new ≡ with_degrees state.old row.now }
{
    state.degrees[..row.len()].copy_from_slice(row);
}

// The step: the first two rounds and the verdict, and, if the board shows no conflict, the third round.
fn step(net: &NetView<'_>, order: &[u16], state: &State, row: &[u16]) -> Result<State, Refusal>
    requires valid { valid (flatten net.now) state.now ≡ true }
    requires ordered { each_once (length net.now.subnets) order.now ≡ true }
    requires long { length row.now ≡ net.now.signals }
    ensures { answer_of state.now result ≡ settle (map Conflict (conflict (flatten net.now) (view state.now) row.now)) state.now (store state.now (next (flatten net.now) (view state.now) row.now)) }
{
    let card = net.card();
    let mut work = Work::new(*state);
    visit_all::<Posting>(card, order, row, &mut work);
    visit_all::<Finding>(card, order, row, &mut work);
    if let Some(p) = uncovered(
        net.full(),
        card.places(),
        &work.state.markings,
        &work.standing,
        &work.claimed,
    ) {
        return Err(Refusal::Conflict(p as usize));
    }
    visit_all::<Moving>(card, order, row, &mut work);
    record_degrees(&mut work.state, row);
    Ok(work.state)
}

// The row that the step takes: of an empty row the last degrees, of any other the row.
fn effective<'a>(last: &'a [u16], row: &'a [u16]) -> &'a [u16]
    ensures { result.now ≡ effective_of last.now row.now }
{
    if row.is_empty() {
        return last;
    }
    row
}

// Tests 20 and 21, then the step.
pub fn loaded_row(
    net: &NetView<'_>,
    order: &[u16],
    state: &State,
    row: &[u16],
) -> Result<State, Refusal>
    requires valid { valid (flatten net.now) state.now ≡ true }
    requires ordered { each_once (length net.now.subnets) order.now ≡ true }
    ensures { answer_of state.now result ≡ settle (row_refusal (flatten net.now) (view state.now) row.now) state.now (store state.now (row_next (flatten net.now) (view state.now) row.now)) }
{
    row_test(net.card(), row)?;
    step(net, order, state, effective(state.degrees(), row))
}

// Tests 25 and 23.
pub fn tested(net: &NetView<'_>, order: &[u16], state: &State) -> Result<(), Refusal>
    ensures { refusal_in result ≡ (some_unless (valid (flatten net.now) state.now) BadState otherwise some_unless (each_once (length net.now.subnets) order.now) BadOrder) }
{
    state_test(net, state)?;
    order_test(net.card(), order)
}

// A row call on a net: the tests and the step.
pub fn called_row(
    net: &NetView<'_>,
    order: &[u16],
    state: &State,
    row: &[u16],
) -> Result<State, Refusal>
    ensures { answer_of state.now result ≡ called (in_order order.now) (accepted net.now) state.now row.now }
{
    tested(net, order, state)?;
    loaded_row(net, order, state, row)
}
