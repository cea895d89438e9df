// States with one entry set.
use runners::{State, Transfer};

// Where an entry stands: in the markings, the transfers or the degrees (of a transfer 65,535 is idle), or as one of the counts.
#[derive(Clone, Copy)]
pub enum Field {
    Marking,
    Transfer,
    Degree,
    Places,
    Transitions,
    Signals,
}

// 5, the signals, stands for any further number too.
impl From<u16> for Field {
    fn from(number: u16) -> Self {
        match number {
            0 => Field::Marking,
            1 => Field::Transfer,
            2 => Field::Degree,
            3 => Field::Places,
            4 => Field::Transitions,
            _ => Field::Signals,
        }
    }
}

fn low(value: u32) -> u16 {
    (value % 65536) as u16
}

// The state, or as it was where the entry is not there.
pub fn with_entry(state: State, field: Field, at: usize, value: u32) -> State {
    let mut s = state;
    match field {
        Field::Marking => {
            if let Some(marking) = s.markings.get_mut(at) {
                *marking = value;
            }
        }
        Field::Transfer => {
            if let Some(transfer) = s.transfers.get_mut(at) {
                *transfer = Transfer::from(low(value));
            }
        }
        Field::Degree => {
            if let Some(degree) = s.degrees.get_mut(at) {
                *degree = low(value);
            }
        }
        Field::Places => s.places = value as usize,
        Field::Transitions => s.transitions = value as usize,
        Field::Signals => s.signals = value as usize,
    }
    s
}
