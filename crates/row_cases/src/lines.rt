// The lines of an answer: the reply's, that of a refused call's state, and that of the degrees.
use card::MOST_PLACES;
use console::put;
use programs::line::{Line, reply_line};
use runners::{RowAnswer, State};
use std::io;

pub fn put_line(rt: &HostRuntime, l: Line) -> io::Result<()> {
    put(rt, l.as_slice())
}

// A state that has the degrees for its markings, so that they are printed.
fn degrees_shown(state: &State) -> State {
    let degrees = state.degrees;
    let mut markings = [0; MOST_PLACES];
    for (marking, degree) in markings.iter_mut().zip(degrees) {
        *marking = u32::from(degree);
    }
    let mut shown = *state;
    shown.markings = markings;
    shown.places = state.signals.min(degrees.len());
    shown.transitions = 0;
    shown
}

pub fn put_state(rt: &HostRuntime, number: u64, state: &State) -> io::Result<()> {
    put_line(rt, reply_line(number, Ok(()), state))?;
    put_line(rt, reply_line(number, Ok(()), &degrees_shown(state)))
}

pub fn put_answer(rt: &HostRuntime, number: u64, answer: &RowAnswer) -> io::Result<()> {
    if answer.reply.is_err() {
        put_line(rt, reply_line(number, answer.reply, &answer.state))?;
    }
    put_state(rt, number, &answer.state)
}
