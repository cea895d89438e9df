// Rows of a file on a card that is loaded once. On the net of a flat card they are answered as the flat runner answers them.
ghost use Rattle.hierarchy.specs.Judgement.{Judgement, accepted};
ghost use Rattle.runners.specs.Answers.{IsRow};
ghost use Rattle.runners.specs.Nets.{IsNet};
ghost use Rattle.programs.specs.Feeds.{file_call};

use crate::file::{degrees_of, row_of};
use hierarchy::CardRefusal;
use runners::flat_runner::ORDER;
use runners::nets::{Net, net_row};
use runners::{RowAnswer, State};

// A row of a file, in the order that names subnet 0 alone: 25, 23 (of a card with more subnets), 20, 21, 22. Two wrong ones that this rules out:
// one that takes a last row that is cut short for one of zeros, and one that hands the step all 63 degrees whatever the card's signals.
pub fn file_row(net: &Net, state: State, bytes: &[u8]) -> RowAnswer
    ensures { IsRow (file_call (accepted net.now) state bytes.now) result }
{
    let row = row_of(bytes, net.signals());
    net.row(&ORDER, state, degrees_of(&row))
}

// The same on what a card was loaded to: a refused card's own refusal stands in front. Two wrong ones that this rules out: one that takes the row of a
// refused card, and one that turns each row of an accepted card back.
pub fn net_file_row(net: &Result<Net, CardRefusal>, state: State, bytes: &[u8]) -> RowAnswer
    ensures { (j : Judgement) → IsNet j net.now → IsRow (file_call j state bytes.now) result }
{
    match net {
        Ok(net) => file_row(net, state, bytes),
        Err(_refusal) => net_row(net, &ORDER, state, &[]),
    }
}
