// A whole plan, read before anything is done with it.
ghost use Rattle.std.specs.Prelude.{◌≡◌, suc, Some, map, IfOk};
ghost use Rattle.plan.specs.declared.reading.PlanError.TheVariants.{Fault, Memory};
ghost use Rattle.plan.specs.Headers.{IsWithinLimits};
ghost use Rattle.plan.specs.Records.{row_of};
ghost use Rattle.plan.specs.Plans.{reader_of, Fresh, events_of, first_spot, plan_of, contents_of, error_line, Answers};

use crate::event::Event;
use crate::events::{Events, read_header};
use crate::header::Header;
use fault::PlanFault;
use std::alloc::{AllocFailed, Global};
use std::error::Error;
use std::fmt;
use std::fmt::Display;

#[derive(Drop)]
pub struct Plan<'a> {
    pub header: Header,
    pub events: Vec<Event<'a>>,
}

// A plan that is not read: it has a fault, or memory failed.
#[derive(Clone, Copy, Debug)]
pub enum PlanError {
    Fault(PlanFault),
    Memory,
}

impl From<PlanFault> for PlanError {
    ghost from_gives = { λ e r. r ≡ Fault e };

    fn from(fault: PlanFault) -> PlanError {
        PlanError::Fault(fault)
    }
}

impl<T: Drop> From<AllocFailed<T>> for PlanError {
    ghost from_gives = { λ _ r. r ≡ Memory };

    fn from(_failed: AllocFailed<T>) -> PlanError {
        PlanError::Memory
    }
}

impl fmt::Display for PlanError {
    ghost output = { λ e. Some (error_line e) };

    fn fmt<W: fmt::Write>(&self, f: &mut fmt::Formatter<W>) -> fmt::Result {
        match self {
            Self::Fault(plan_fault) => plan_fault.fmt(f),
            Self::Memory => f.write_str("out of memory"),
        }
    }
}

impl Error for PlanError {}

// All events of a reader that is at the first.
fn gather<'a>(heap: Global, mut reader: Events<'a>) -> Result<Vec<Event<'a>>, PlanError>
    requires { Fresh (reader_of reader) }
    ensures { Answers (λ v. map row_of v.items) result (events_of (suc (reader_of reader.entry).total) (reader_of reader.entry).rest (first_spot (reader_of reader.entry).first)) }
{
    let mut events = Vec::new(heap);
    while let Some(event) = reader.next()? {
        events.push(event)?;
    }
    Ok(events)
}

// Reads the whole plan: its header, then all its events.
pub fn read_plan<'a>(heap: Global, bytes: &'a [u8]) -> Result<Plan<'a>, PlanError>
    ensures answer { Answers contents_of result (plan_of bytes.now) }
    ensures limits { IfOk result (λ p. IsWithinLimits p.header) }
{
    let (header, reader) = read_header(bytes)?;
    let events = gather(heap, reader)?;
    Ok(Plan { header, events })
}
