// The events of a plan, one after another. Only a header that was accepted gives a reader of them.
ghost use Rattle.std.specs.Prelude.{◌≡◌, false, drop, IfOk, IsTrue, MatchOption, is_none};
ghost use Rattle.std.specs.Option.{option_map};
ghost use Rattle.fault.specs.Faults.{told, shown, plan_told};
ghost use Rattle.plan.specs.Headers.{IsWithinLimits};
ghost use Rattle.plan.specs.Records.{row_of};
ghost use Rattle.plan.specs.Plans.{reader_of, unread, is_end, step_of, next_spot, Fresh, open_of, next_of, after_of};

use crate::event::{Event, read_event};
use crate::field::Input;
use crate::header::{Header, read_fields};
use fault::{LONGEST_PLAN, PlanFault, Spot};

// The bytes to come, none past the end record; the plan's length; the place of the first event.
#[derive(Clone, Copy)]
pub struct Events<'a> {
    rest: Option<&'a [u8]>,
    total: u32,
    first: u32,
}

// The header of a plan, and the reader of its events.
#[tactic(auto, using(crate::proofs::Limits::header_limits))]
pub fn read_header<'a>(bytes: &'a [u8]) -> Result<(Header, Events<'a>), PlanFault>
    ensures answer { shown (λ p. (p.0, reader_of p.1)) (told plan_told result) ≡ open_of bytes.now }
    ensures fresh { IfOk result (λ p. Fresh (reader_of p.1)) }
    ensures limits { IfOk result (λ p. IsWithinLimits p.0) }
{
    if bytes.len() > LONGEST_PLAN {
        return Err(PlanFault::TooLong);
    }
    let (header, first) = read_fields(bytes)?;
    let events = Events {
        rest: Some(&bytes[first..]),
        total: bytes.len() as u32,
        first: first as u32,
    };
    Ok((header, events))
}

// The event at the front of the input, and the bytes after it: none after an end record, which has to be the last.
#[tactic(auto, using(crate::proofs::Steps::step_fault, crate::proofs::Steps::step_on, crate::proofs::Steps::step_end, crate::proofs::Steps::step_trailing))]
fn read_step<'a>(input: Input<'a>) -> Result<(Event<'a>, Option<&'a [u8]>), PlanFault>
    ensures answer { shown (λ p. row_of p.0) (told plan_told result) ≡ step_of input.entry.bytes.now input.entry.start }
    ensures rest { IfOk result (λ p. (unread p.1 ≡ drop 8 input.entry.bytes.now) × (is_none p.1 ≡ is_end (row_of p.0).kind)) }
{
    let (event, rest) = read_event(input)?;
    if !event.kind().is_end() {
        return Ok((event, Some(rest)));
    }
    if !rest.is_empty() {
        return Err(PlanFault::Trailing(input.spot(64)));
    }
    Ok((event, None))
}

impl<'a> Events<'a> {
    // The input from the next record on; none past the end.
    fn upcoming(&self) -> Option<Input<'a>>
        ensures { MatchOption result (IsTrue (reader_of self.now).ended) (λ i. ((reader_of self.now).ended ≡ false) × (i.bytes.now ≡ (reader_of self.now).rest) × (i.start ≡ next_spot (reader_of self.now))) }
    {
        let bytes = self.rest?;
        let byte = (self.total as usize).saturating_sub(bytes.len());
        let number = byte.saturating_sub(self.first as usize) / 8 + 1;
        Some(Input {
            bytes,
            start: Spot { byte, number },
        })
    }

    // The next event; none past the end. A fault leaves the reader where it is.
    pub fn next(&mut self) -> Result<Option<Event<'a>>, PlanFault>
        ensures answer { shown (option_map row_of) (told plan_told result) ≡ next_of (reader_of self.old) }
        ensures after { reader_of self.new ≡ after_of (reader_of self.old) }
    {
        // Past the end the answer is none, and no error.
        let Some(input) = self.upcoming() else {
            return Ok(None);
        };
        let (event, rest) = read_step(input)?;
        self.rest = rest;
        Ok(Some(event))
    }
}
