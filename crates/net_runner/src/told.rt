// What a caller is told of an answer: its number and its value.
ghost use Rattle.std.specs.Prelude.{◌≡◌, Err};
ghost use Rattle.hierarchy.specs.Numbers.{check_outcome, write_outcome};
ghost use Rattle.runners.specs.Numbers.{refusal};
ghost use Rattle.net_runner.specs.Told.{check_told, write_told, row_told, answer_told, IsTold};

use hierarchy::{CardRefusal, WriteRefusal};
use runners::Refusal;

// A number and a value, and no enum, since that is what the C interface carries.
#[derive(Clone, Copy)]
pub struct Told {
    pub number: u64,
    pub value: usize,
}

impl From<CardRefusal> for Told {
    ghost from_gives = { λ r t. t ≡ check_told (check_outcome (Err r)) };

    fn from(r: CardRefusal) -> Told {
        Told {
            number: r.fault.number(),
            value: r.bit,
        }
    }
}

impl From<WriteRefusal> for Told {
    ghost from_gives = { λ r t. t ≡ write_told (write_outcome (Err r)) };

    fn from(r: WriteRefusal) -> Told {
        Told {
            number: r.number(),
            value: r.value(),
        }
    }
}

// Where a refusal has no value, 0 is told.
impl From<Refusal> for Told {
    ghost from_gives = { λ r t. t ≡ row_told (refusal r) };

    fn from(r: Refusal) -> Told {
        Told {
            number: r.number(),
            value: r.value().unwrap_or(0),
        }
    }
}

// Stores the value of an answer, and hands out its number: 0 where it is no refusal.
pub fn tell(answer: Result<usize, Told>, value: &mut usize) -> u64
    ensures { IsTold (answer_told answer) result value.new }
{
    let told = match answer {
        Ok(value) => Told { number: 0, value },
        Err(told) => told,
    };
    *value = told.value;
    told.number
}
