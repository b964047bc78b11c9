// The calls and the answers as they are printed.
ghost use Rattle.std.specs.Prelude.{Some};
ghost use Rattle.rules.specs.Words.{state_word, call_text, answer_text};

use crate::{Answer, Call, State};
use std::fmt;

impl fmt::Display for State {
    ghost output = { λ x. Some (state_word x) };

    fn fmt<W: fmt::Write>(&self, f: &mut fmt::Formatter<W>) -> fmt::Result {
        match *self {
            State::Ready => write!(f, "ready"),
            State::Spent => write!(f, "spent"),
            State::Resting => write!(f, "resting"),
        }
    }
}

impl fmt::Display for Call {
    ghost output = { λ x. Some (call_text x) };

    fn fmt<W: fmt::Write>(&self, f: &mut fmt::Formatter<W>) -> fmt::Result {
        match *self {
            Call::Admit(budget, period) => write!(f, "admit {budget} {period}"),
            Call::Wake(number) => write!(f, "wake {number}"),
            Call::Rest(number) => write!(f, "rest {number}"),
            Call::Leave(number) => write!(f, "leave {number}"),
            Call::Move(number, core) => write!(f, "move {number} {core}"),
            Call::Deal => write!(f, "deal"),
            Call::Settle(tick) => write!(f, "settle {tick}"),
        }
    }
}

impl fmt::Display for Answer {
    ghost output = { λ x. Some (answer_text x) };

    fn fmt<W: fmt::Write>(&self, f: &mut fmt::Formatter<W>) -> fmt::Result {
        match *self {
            Answer::Placed(number, core) => write!(f, "{number} on {core}"),
            Answer::Awake(state, deadline) => write!(f, "{state} {deadline}"),
            Answer::Left(left) => write!(f, "left {left}"),
            Answer::Until(tick) => write!(f, "until {tick}"),
            Answer::Free => write!(f, "free"),
            Answer::Dealt(tick) => write!(f, "dealt {tick}"),
            Answer::Clock(tick) => write!(f, "clock {tick}"),
            Answer::Refused(refusal) => write!(f, "refused {refusal}"),
        }
    }
}
