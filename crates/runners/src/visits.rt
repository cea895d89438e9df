// The three rounds of visits in a row: to post standing claims, to find candidates and post theirs, and to move. A visit is made of what one
// transition does, over the subnet's own transitions. None is an entry point; a visit's contract holds the three facts of specs/Visits.antt.
ghost use Rattle.std.specs.Prelude.{◌≡◌};
ghost use Rattle.runners.specs.Visits.{Round as RoundOf, posting, finding, moving, IsVisit};
ghost use Rattle.runners.specs.inner.Transitions.{IsOne, IsSpan};
ghost use Rattle.runners.specs.inner.Rounds.{IsRound};

use crate::claims::change_by;
use crate::work::{Work, distance};
use crate::{Transfer, rules};
use card::MOST_TRANSITIONS;
use card::view::CardView;
use std::ops::Range;

// What each transition does in a round of visits.
pub trait Round {
    ghost round: { RoundOf };

    fn one(card: &CardView<'_>, t: u16, row: &[u16], work: &mut Work)
        ensures { IsOne round t card.now row.now work.old work.new };
}

// The first round: a transition posts what remains of its transfer. Two wrong ones that this rules out: one that posts nothing for a transfer
// whose progress is 0, and one that posts its children's transfers too.
pub struct Posting;

impl Round for Posting {
    ghost round = { posting };

    fn one(card: &CardView<'_>, t: u16, _row: &[u16], work: &mut Work) {
        let rest = work.transfer(t).remaining(card);
        change_by(&mut work.standing, card, t, rest);
    }
}

// The second: it is noted as a candidate or not, and posts all of its weights if it is one. Two wrong ones that this rules out: one that judges on
// the markings alone, and one that posts its claims among the standing ones.
pub struct Finding;

impl Round for Finding {
    ghost round = { finding };

    fn one(card: &CardView<'_>, t: u16, row: &[u16], work: &mut Work) {
        let candidate = work.is_candidate(card, t, row);
        if candidate {
            change_by(&mut work.claimed, card, t, rules::scale(card));
        }
        // By index, here and below: of a write through get_mut no proof was found.
        if (t as usize) < MOST_TRANSITIONS {
            work.candidates[t as usize] = candidate;
        }
    }
}

// The third: it starts if it is a candidate, and moves what it carries. Two wrong ones that this rules out: one that lets degrees add up past
// 1000, and one that takes a progress of 0 for idle.
pub struct Moving;

impl Round for Moving {
    ghost round = { moving };

    fn one(card: &CardView<'_>, t: u16, row: &[u16], work: &mut Work) {
        let starting = work.is_noted(t);
        let transfer = if starting {
            Transfer::Carrying(0)
        } else {
            work.transfer(t)
        };
        let d = distance(card, t, starting, transfer, &work.state.degrees, row);
        change_by(&mut work.state.markings, card, t, d);
        if (t as usize) < MOST_TRANSITIONS {
            work.state.transfers[t as usize] = transfer.advanced(card, d);
        }
    }
}

// These transitions, one after another.
#[tactic(auto, using(crate::proofs::SpanLaws::span_start, crate::proofs::SpanLaws::span_more))]
pub fn each<R: Round>(card: &CardView<'_>, transitions: Range<u16>, row: &[u16], work: &mut Work)
    ensures { IsSpan R.round transitions.start transitions.end card.now row.now work.old work.new }
{
    for t in transitions {
        R::one(card, t, row, work);
    }
}

// The visit of subnet s in a round.
pub fn visit<R: Round>(card: &CardView<'_>, s: u16, row: &[u16], work: &mut Work)
    ensures { IsVisit R.round s card.now row.now work.old work.new }
{
    each::<R>(card, card.transitions_of(s), row, work);
}

// A round visits the subnets in the order that was lent.
#[tactic(auto, using(crate::proofs::RoundLaws::round_start, crate::proofs::RoundLaws::round_all))]
pub fn visit_all<R: Round>(card: &CardView<'_>, order: &[u16], row: &[u16], work: &mut Work)
    ensures { IsRound R.round order.now card.now row.now work.old work.new }
{
    for s in order {
        visit::<R>(card, *s, row, work);
    }
}
