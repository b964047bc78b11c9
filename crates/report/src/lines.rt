// The lines of a report, in their order.
ghost use Rattle.std.specs.Prelude.{◌≡◌, ◌<◌, ◌++◌, map, length, IfOk, OnOk};
ghost use Rattle.rules.specs.Parts.{live_parts, departed_parts};
ghost use Rattle.engine.specs.Engines.{setup, shown};
ghost use Rattle.plan.specs.Headers.{IsWithinLimits};
ghost use Rattle.plan.specs.Plans.{contents_of, plan_of};
ghost use Rattle.report.specs.declared.line.Line.TheVariants.{Core};
ghost use Rattle.report.specs.Lines.{line_text};
ghost use Rattle.report.specs.Reports.{end_lines, core_lines, ran_line, step_of, header_lines, content_lines, IsMade, report_of};

use crate::line::Line;
use crate::notes::Notes;
use crate::steps::{figures_of, steps_of};
use engine::{Engine, Finish, run};
use measure::{Catalogue, Measure, Rounded};
use plan::{MeasureKind, Plan, PlanError, PolicyKind, read_plan};
use policy::{BestFit, FirstFit, Policy, WorstFit};
use std::alloc::{AllocError, Global};

// The line of a core that there is.
fn core_line<M: Measure, P: Policy>(engine: &Engine<M, P>, core: u32) -> Line
    requires { core < length (setup M.Measure.whole M.Measure.price P.Policy.choice engine.now).figures }
    ensures { result ≡ Core core (live_parts core (shown engine.now).live) (departed_parts (shown engine.now).clock core (shown engine.now).ledger) }
{
    let live = engine.live_parts(core).unwrap();
    let departed = engine.departed_parts(core).unwrap();
    Line::Core {
        core,
        live,
        departed,
    }
}

// The lines after those of the run: the end where the run came to it, the cores, the live reservations by number.
fn close<M: Measure, P: Policy>(
    mut lines: Vec<Line>,
    engine: &Engine<M, P>,
    complete: bool,
) -> Result<Vec<Line>, AllocError>
    ensures { IfOk result (λ v. map line_text v.items ≡ map line_text lines.items ++ (end_lines complete (shown engine.now).clock ++ (core_lines (shown engine.now) (length (setup M.Measure.whole M.Measure.price P.Policy.choice engine.now).figures) ++ map ran_line (shown engine.now).live))) }
{
    if complete {
        let tick = engine.clock();
        lines.push(Line::End { tick })?;
    }
    let cores = engine.cores() as u32;
    lines.extend((0..cores).map(|core| core_line(engine, core)))?;
    lines.extend(
        engine.live().iter().map(|row| Line::Ran {
            number: row.number,
            ticks: row.ran,
        }),
    )?;
    Ok(lines)
}

// Runs a plan's steps on an engine of this measure and policy, and writes their lines.
fn play<M: Measure + Drop, P: Policy + Drop>(
    heap: Global,
    measure: M,
    policy: P,
    plan: &Plan,
) -> Result<Vec<Line>, AllocError>
    requires { IsWithinLimits plan.now.header }
    ensures { IfOk result (λ v. map line_text v.items ≡ header_lines (M.Measure.whole measure) (M.Measure.price measure) (P.Policy.choice policy) plan.now.header (map step_of (contents_of plan.now).events)) }
{
    let figures = figures_of(&plan.header);
    let steps = steps_of(heap, &plan.events)?;
    let mut notes = Notes::new(heap);
    let Finish {
        engine,
        round,
        complete,
    } = run(
        measure,
        policy,
        &figures,
        plan.header.start,
        &steps,
        &mut notes,
    )
    .unwrap();
    // A plan's steps leave no round out.
    let None = round else { unreachable() };
    close(notes.lines?, &engine, complete)
}

// The lines of a plan's contents, by the measure and the policy that its header names. The kinds are another crate's, so that they are no measure and no policy themselves.
fn play_plan(heap: Global, plan: &Plan) -> Result<Vec<Line>, AllocError>
    requires { IsWithinLimits plan.now.header }
    ensures { IfOk result (λ v. map line_text v.items ≡ content_lines (contents_of plan.now)) }
{
    match (plan.header.measure, plan.header.policy) {
        (MeasureKind::Rounded, PolicyKind::First) => play(heap, Rounded, FirstFit, plan),
        (MeasureKind::Rounded, PolicyKind::Worst) => play(heap, Rounded, WorstFit, plan),
        (MeasureKind::Rounded, PolicyKind::Best) => play(heap, Rounded, BestFit, plan),
        (MeasureKind::Catalogue, PolicyKind::First) => play(heap, Catalogue, FirstFit, plan),
        (MeasureKind::Catalogue, PolicyKind::Worst) => play(heap, Catalogue, WorstFit, plan),
        (MeasureKind::Catalogue, PolicyKind::Best) => play(heap, Catalogue, BestFit, plan),
    }
}

// The report of a plan: its fault alone, or all its lines.
pub fn report(heap: Global, bytes: &[u8]) -> Result<Vec<Line>, AllocError>
    ensures lines { IfOk result (λ v. map line_text v.items ≡ report_of bytes.now) }
    ensures made { OnOk result (IsMade (plan_of bytes.now)) }
{
    // A fault is a report too, so of the three ends only one is an error.
    match read_plan(heap, bytes) {
        Ok(plan) => play_plan(heap, &plan),
        Err(PlanError::Fault(fault)) => Ok(vec![in heap; Line::Fault(fault)]?),
        Err(PlanError::Memory) => Err(AllocError),
    }
}
