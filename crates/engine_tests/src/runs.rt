// Runs of steps before an observer that keeps what it is told.
use crate::prelude::*;
use engine::{Observer, Step};
use rules::Answer::*;
use rules::Call::*;
use rules::{Answer, Call};
use std::alloc::{AllocError, Global};
use std::process::Abort;
use std::test::*;

// The calls told, or that memory failed; how many deals named somebody for core 0, and the deals in all.
#[derive(Drop)]
struct Log {
    told: Result<Vec<Row>, AllocError>,
    named: u32,
    deals: u32,
}

impl Log {
    fn new(heap: Global) -> Log {
        Log {
            told: Ok(Vec::new(heap)),
            named: 0,
            deals: 0,
        }
    }
}

impl Observer for Log {
    ghost shows = { λ _ _. Unit {0} };

    fn said(&mut self, tick: u32, call: Call, answer: Answer) {
        if let Ok(told) = &mut self.told
            && told.push((tick, call, answer)).is_err()
        {
            self.told = Err(AllocError);
        }
    }

    fn dealt(&mut self, names: &[Option<u32>]) {
        if let [Some(_), ..] = names {
            self.named = self.named.saturating_add(1);
        }
        self.deals = self.deals.saturating_add(1);
    }
}

const SCRIPT: [Row; 11] = [
    (5, Settle(5), Refused(Refusal::WrongRound)),
    (5, Admit(1, 3), Placed(1, 0)),
    (5, Wake(1), Awake(State::Ready, 8)),
    (5, Deal, Dealt(5)),
    (5, Deal, Refused(Refusal::RoundOut)),
    (5, Rest(1), Refused(Refusal::RoundOut)),
    (5, Settle(4), Refused(Refusal::WrongRound)),
    (5, Settle(5), Clock(6)),
    (6, Settle(6), Refused(Refusal::WrongRound)),
    (6, Rest(1), Left(0)),
    (6, Deal, Dealt(6)),
];

// What shows that a round of tick 6 is out, and settles it.
const LAST: [Row; 2] = [
    (6, Deal, Refused(Refusal::RoundOut)),
    (6, Settle(6), Clock(7)),
];

// A step after so many rounds.
const fn after(rounds: u32, call: Call) -> Step {
    Step {
        rounds,
        call: Some(call),
    }
}

// The script's calls, each a step of its own.
fn scripted() -> [Step; 11] {
    SCRIPT.map(|(_, call, _)| after(0, call))
}

// A run on one core: its start and its steps, what is told, how many deals there are and how many of them name somebody, whether all was done,
// and calls made afterwards.
#[derive(Clone, Copy)]
struct Run<'a> {
    start: u32,
    steps: &'a [Step],
    told: &'a [Row],
    deals: u32,
    named: u32,
    complete: bool,
    afterwards: &'a [Row],
}

impl Run<'_> {
    fn goes(self, rt: &impl Abort, heap: Global) -> Result<(), Fail> {
        let mut log = Log::new(heap);
        let (mut trial, complete) = Trial::after(
            Rounded,
            FirstFit,
            &[1000],
            self.start,
            self.steps,
            &mut log,
        )?;
        let told = log.told?;
        assert_eq!(rt; told.as_slice(), self.told);
        assert_eq!(rt;
            (log.deals, log.named, complete),
            (self.deals, self.named, self.complete)
        );
        trial.play(rt, self.afterwards)
    }
}

#[test]
fn a_script_by_calls(rt: HostRuntime) -> Result<(), Fail> {
    let mut trial = Trial::new(Rounded, FirstFit, &[1000], 5)?;
    trial.play(&rt, &SCRIPT)?;
    trial.play(&rt, &LAST)
}

#[test]
fn a_script_by_a_run(rt: HostRuntime) -> Result<(), Fail> {
    let run = Run {
        start: 5,
        steps: &scripted(),
        told: &SCRIPT,
        deals: 2,
        named: 1,
        complete: true,
        afterwards: &LAST,
    };
    run.goes(&rt, rt.alloc())
}

// The calls after the end are not made.
#[test]
fn a_run_to_the_end_of_the_clock(rt: HostRuntime) -> Result<(), Fail> {
    let run = Run {
        start: 3_999_999_998,
        steps: &[after(1, Admit(1, 2)), after(3, Wake(1)), after(0, Leave(1))],
        told: &[
            (3_999_999_998, Deal, Dealt(3_999_999_998)),
            (3_999_999_998, Settle(3_999_999_998), Clock(3_999_999_999)),
            (3_999_999_999, Admit(1, 2), Placed(1, 0)),
            (3_999_999_999, Deal, Dealt(3_999_999_999)),
            (3_999_999_999, Settle(3_999_999_999), Clock(END)),
            (END, Deal, Refused(Refusal::ClockEnd)),
        ],
        deals: 2,
        named: 0,
        complete: false,
        afterwards: &[(END, Rest(1), Refused(Refusal::Resting))],
    };
    run.goes(&rt, rt.alloc())
}

#[test]
fn a_run_up_to_a_round_in_hand(rt: HostRuntime) -> Result<(), Fail> {
    let run = Run {
        start: 4,
        steps: &[after(2, Deal), after(1, Admit(1, 2))],
        told: &[
            (4, Deal, Dealt(4)),
            (4, Settle(4), Clock(5)),
            (5, Deal, Dealt(5)),
            (5, Settle(5), Clock(6)),
            (6, Deal, Dealt(6)),
            (6, Deal, Refused(Refusal::RoundOut)),
        ],
        deals: 3,
        named: 0,
        complete: false,
        afterwards: &LAST,
    };
    run.goes(&rt, rt.alloc())
}

// Nothing is told of an engine that is not made.
#[test]
fn a_run_of_no_engine(rt: HostRuntime) -> Result<(), Fail> {
    for (figure, start, number) in [(0, 0, 2), (1001, END, 2), (1000, 4_000_000_001, 3)] {
        let mut log = Log::new(rt.alloc());
        let made = Trial::after(Rounded, FirstFit, &[figure], start, &scripted(), &mut log);
        assert_eq!(rt; made.err().map(Refusal::number), Some(number));
        assert_eq!(rt; log.told?.len(), 0);
    }
    Ok(())
}
