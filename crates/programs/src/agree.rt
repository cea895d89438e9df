// Both runners on a file of calls. A call is a row's bytes as in a rows file, and then the visiting order, a byte a subnet.
ghost use Rattle.std.specs.Prelude.{◌≡◌, ◌↔◌, true, ◌-◌, ◌≤◌, ◌<◌, ◌++◌, length, replicate};
ghost use Rattle.card.specs.Card.{Card};
ghost use Rattle.runners.specs.Rows.{Ask, degrees};
ghost use Rattle.programs.specs.Agreeing.{IsBoth, IsAgreed, Agrees, call_of, calls_of, row_size};

use crate::file::{degrees_of, row_bytes, row_of};
use crate::same::{same_reply, same_state};
use card::MOST_SUBNETS;
use runners::State;
use runners::flat_runner::flat_row;
use runners::fresh::fresh;
use runners::subnet_runner::subnet_row;

// The states of both runners.
#[derive(Clone, Copy)]
pub struct Both {
    pub flat: State,
    pub subnet: State,
}

// A row call of both: the states that it leaves, if it answered alike and they are equal.
fn both_rows(card: &[u8], order: &[u16], row: &[u16], before: Both) -> Option<Both>
    ensures { IsBoth card.now (record { ask = Ask.row (degrees row.now); order = order.now }) before result }
{
    let flat = flat_row(card, before.flat, row);
    let subnet = subnet_row(card, before.subnet, order, row);
    if !same_reply(subnet.reply, flat.reply) {
        return None;
    }
    if !same_state(&subnet.state, &flat.state) {
        return None;
    }
    Some(Both {
        flat: flat.state,
        subnet: subnet.state,
    })
}

// The numbers of an order's bytes, and zeros behind them. It writes by index, since no contract of `iter_mut` beside another iterator says what the
// array has afterwards.
fn order_of(bytes: &[u8]) -> [u16; MOST_SUBNETS]
    requires { length bytes.now ≤ 32 }
    ensures { result ≡ bytes.now ++ replicate (32 - length bytes.now) 0 }
{
    let mut order = [0; MOST_SUBNETS];
    for (i, byte) in bytes.iter().enumerate() {
        order[i] = u16::from(*byte);
    }
    order
}

// A call of a file: a row's bytes, and an order's.
fn both_calls(card: &[u8], row: &[u8], order: &[u8], signals: u16, before: Both) -> Option<Both>
    requires few_subnets { length order.now ≤ 32 }
    requires few_signals { signals ≤ 63 }
    ensures { (c : Card) → c.signals ≡ signals → row_size c ≡ length row.now → IsBoth card.now (call_of c (row.now ++ order.now)) before result }
{
    let numbers = order_of(order);
    let row = row_of(row, signals);
    both_rows(card, &numbers[..order.len()], degrees_of(&row), before)
}

// All calls of a file from a state.
fn agree_from(card: &[u8], file: &[u8], signals: u16, subnets: usize, first: State) -> bool
    requires few_signals { signals ≤ 63 }
    requires some_subnets { 0 < subnets }
    requires few_subnets { subnets ≤ 32 }
    ensures { (c : Card) → c.signals ≡ signals → length c.subnets ≡ subnets → (result ≡ true) ↔ Agrees card.now first first (calls_of c file.now) }
{
    let row_size = row_bytes(signals);
    let mut states = Both {
        flat: first,
        subnet: first,
    };
    for call in file.chunks_exact(row_size + subnets) {
        let (row, order) = call.split_at(row_size);
        let Some(after) = both_calls(card, row, order, signals, states) else {
            return false;
        };
        states = after;
    }
    true
}

// Whether both runners answer alike and leave equal states, call by call, from fresh states; no for a refused card. Where the orders are valid
// it is always yes. Two wrong ones that this rules out: one that always says yes, and one that compares the states but not the replies, which
// misses an order that is refused in front of a row that moves nothing.
pub fn agree(card: &[u8], file: &[u8]) -> bool
    ensures { IsAgreed card.now file.now result }
{
    let Ok(first) = fresh(card) else {
        return false;
    };
    let subnets = usize::from(first.counts.subnets);
    let state = first.state;
    if subnets < 1 || 32 < subnets || 63 < state.signals {
        return false;
    }
    agree_from(card, file, state.signals as u16, subnets, state)
}
