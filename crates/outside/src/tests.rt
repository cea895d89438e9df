// The calls, one test for each function.
ghost use Rattle.std.specs.Prelude.{◌≡◌, IfSome};
ghost use Rattle.std.specs.Result.{is_ok};
ghost use Rattle.card.specs.Rows.{on_rows};
ghost use Rattle.card.specs.inner.Runs.{Gathered, in_order};
ghost use Rattle.hierarchy.specs.Judgement.{judge};
ghost use Rattle.runners.specs.Nets.{IsNet};

use card::reader::read;
use card::{Head, MOST_SUBNETS, Rows, SUBNET_FIELDS, TABLE};
use hierarchy::CardRefusal;
use hierarchy::check::load;
use runners::Transfer;
use runners::fresh::fresh;
use runners::nets::Net;
use std::test::Fail;

const CARD: [u8; 29] = [
    0x10, 0x82, 0x00, 0x00, 0x40, 0x40, 0x10, 0x10, 0x04, 0x00, 0x00, 0x0c, 0x20, 0x00, 0x20, 0x00,
    0x10, 0x0a, 0x02, 0x00, 0x01, 0x00, 0x02, 0x20, 0x40, 0x00, 0x61, 0x01, 0x01,
];

// The header; subnet 0, its place, its transition and two arcs; subnet 1, its two places, its transition and two arcs.
const NUMBERS: [u16; 44] = [
    1, 2, 2, 0, 0, 0, 0, 1, 1, 0, 1, 1, 0, 2, 0, 0, 0, 0, 1, 1, 1, 0, 1, 0, 0, 2, 1, 1, 1, 0, 0, 2,
    0, 1, 2, 0, 0, 1, 0, 1, 1, 1, 1, 1,
];

// What is not as expected, as a test's error: no test ends the process.
fn told(as_expected: bool, what: &'static str) -> Result<(), &'static str>
    ensures { is_ok result ≡ as_expected }
{
    as_expected.then_some(()).ok_or(what)
}

// The net of a card, made of what the check left and an index with a number where no card has a row: one that is not whole is taken too.
#[tactic(auto, using(runners::proofs::NetLaws::loaded_meets))]
fn net_of(card: &[u8]) -> Result<Net, CardRefusal>
    ensures { IsNet (judge card.now) result }
{
    let mut numbers = [0; TABLE];
    let mut index = load(card, &mut numbers)?;
    index.starts[MOST_SUBNETS] = 7;
    Ok(Net::new(numbers, index))
}

// The numbers of tables in the order of the card, where there are as many rows as the counts say.
fn in_order(head: Head, rows: &Rows<'_>) -> Option<[u16; TABLE]>
    ensures { IfSome result (Gathered (on_rows (in_order head) rows.now)) }
{
    if !rows.counts_match() || 65535 < rows.subnets.len() / SUBNET_FIELDS {
        return None;
    }
    Some(rows.gather(head))
}

#[test]
fn tables_are_put_in_the_order_of_the_card() -> Result<(), Fail> {
    let head = Head {
        version: 1,
        signals: 2,
        limit: 0,
        scale: 0,
    };
    let rows = Rows {
        subnets: &[0, 0, 1, 1, 0, 0, 2, 1],
        places: &[0, 1, 1, 1, 1, 0, 0, 2, 0],
        transitions: &[0, 2, 0, 1, 2, 0],
        arcs: &[0, 0, 0, 1, 1, 1, 0, 1, 0, 1, 0, 1, 1, 1, 1, 1],
    };
    let numbers = in_order(head, &rows).ok_or("they do not count")?;
    told(numbers.starts_with(&NUMBERS), "the numbers")?;
    let mut left = [0; TABLE];
    told(read(&CARD, &mut left).is_ok(), "the card is read")?;
    told(numbers == left, "the numbers of the card")?;
    Ok(())
}

#[test]
fn a_net_that_is_made_takes_rows() -> Result<(), Fail> {
    let net = net_of(&CARD)?;
    told(net.signals() == 2, "the signals")?;
    let first = fresh(&CARD)?.state;
    let after = net.row(&[1, 0], first, &[400, 0]).state;
    told(after.markings[..3] == [600, 400, 0], "the markings")?;
    told(
        after.transfers[..2] == [Transfer::Carrying(400), Transfer::Idle],
        "the transfers",
    )?;
    told(after.degrees[..2] == [400, 0], "the degrees")?;
    told(
        net_of(&CARD[..28]).is_err(),
        "a card that is cut short is refused",
    )?;
    Ok(())
}
