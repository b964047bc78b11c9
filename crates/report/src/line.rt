// A line of a report.
ghost use Rattle.std.specs.Prelude.{Some};
ghost use Rattle.report.specs.Lines.{line_text};

use fault::PlanFault;
use rules::{Answer, Call};
use std::fmt;
use std::fmt::Display;

#[derive(Clone, Copy)]
pub enum Line {
    // The plan is damaged.
    Fault(PlanFault),
    // A call made at a tick, and its answer.
    Said {
        tick: u32,
        call: Call,
        answer: Answer,
    },
    // The end record.
    End {
        tick: u32,
    },
    // A core with the parts of its live and of its departed reservations.
    Core {
        core: u32,
        live: u64,
        departed: u64,
    },
    // A live reservation with the ticks that it has run.
    Ran {
        number: u32,
        ticks: u32,
    },
}

impl fmt::Display for Line {
    ghost output = { λ l. Some (line_text l) };

    fn fmt<W: fmt::Write>(&self, f: &mut fmt::Formatter<W>) -> fmt::Result {
        match *self {
            Line::Fault(fault) => fault.fmt(f),
            Line::Said { tick, call, answer } => write!(f, "{tick} {call} = {answer}"),
            Line::End { tick } => write!(f, "{tick} end"),
            Line::Core {
                core,
                live,
                departed,
            } => write!(f, "core {core} {live} {departed}"),
            Line::Ran { number, ticks } => write!(f, "res {number} ran {ticks}"),
        }
    }
}
