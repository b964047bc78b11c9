// A plan's events as the steps of a run, and its figures B.
ghost use Rattle.std.specs.Prelude.{◌≡◌, map, IfOk};
ghost use Rattle.plan.specs.Records.{row_of};
ghost use Rattle.report.specs.Reports.{call_of, step_of, figures_of};

use arrayvec::ArrayVec;
use engine::Step;
use plan::{Event, Header};
use rules::{Call, MOST_CORES};
use std::alloc::{AllocError, Global};

// The call of an event; the end record makes none.
fn call_of(event: Event) -> Option<Call>
    ensures { result ≡ call_of (row_of event.entry).kind (row_of event.entry).a (row_of event.entry).b }
{
    match event {
        Event::Admit { budget, period, .. } => Some(Call::Admit(budget, period)),
        Event::Wake { number, .. } => Some(Call::Wake(number)),
        Event::Rest { number, .. } => Some(Call::Rest(number)),
        Event::Leave { number, .. } => Some(Call::Leave(number)),
        Event::Move { number, core, .. } => Some(Call::Move(number, core)),
        Event::End { .. } => None,
    }
}

// The step of an event: its gap in rounds, and then its call.
fn step_of(event: Event) -> Step
    ensures { result ≡ step_of (row_of event.entry) }
{
    Step {
        rounds: event.gap(),
        call: call_of(event),
    }
}

// The steps of a plan's events.
pub fn steps_of(heap: Global, events: &[Event]) -> Result<Vec<Step>, AllocError>
    ensures { IfOk result (λ v. v.items ≡ map step_of (map row_of events.now)) }
{
    events.iter().map(|event| step_of(*event)).collect(heap)
}

// The figures B of the cores, of which there are eight at most, so that no memory is asked for.
pub fn figures_of(header: &Header) -> ArrayVec<u32, MOST_CORES>
    ensures { result.items ≡ figures_of header.now }
{
    let mut figures = ArrayVec::from(header.bounds.map(u32::from));
    figures.truncate(header.cores as usize);
    figures
}
