// What can be asked of an engine.
use crate::prelude::*;
use engine::Engine;
use rules::Answer::*;
use rules::Call::*;
use std::process::Abort;
use std::test::*;

// The bound of a core, its live and departed parts, and the name dealt.
type Core = (u32, u64, u64, Option<u32>);

// What the engine answers of a core.
type Asked = (
    Result<u32, Refusal>,
    Result<u64, Refusal>,
    Result<u64, Refusal>,
    Result<Option<u32>, Refusal>,
);

fn asked<M: Measure, P: Policy>(engine: &Engine<M, P>, core: u32) -> Asked {
    (
        engine.bound(core),
        engine.live_parts(core),
        engine.departed_parts(core),
        engine.name_dealt(core),
    )
}

const NO_CORE: Asked = (
    Err(Refusal::NoCore),
    Err(Refusal::NoCore),
    Err(Refusal::NoCore),
    Err(Refusal::NoCore),
);

// The engine has exactly these cores.
fn shows<M: Measure, P: Policy>(
    rt: &impl Abort,
    engine: &Engine<M, P>,
    cores: &[Core],
) -> Result<(), Fail> {
    for (core, &(bound, live, departed, name)) in (0..).zip(cores) {
        assert_eq!(rt;
            asked(engine, core),
            (Ok(bound), Ok(live), Ok(departed), Ok(name))
        );
    }
    for missing in [u32::try_from(cores.len())?, 8, u32::MAX] {
        assert_eq!(rt; asked(engine, missing), NO_CORE);
    }
    assert_eq!(rt; engine.cores(), cores.len());
    Ok(())
}

// A figure B, and the bound by the rounded measure and by the catalogue.
const BOUNDS: [(u32, u32, u32); 6] = [
    (1, 1_048, 1),
    (2, 2_097, 2),
    (333, 349_175, 333),
    (950, 996_147, 950),
    (999, 1_047_527, 999),
    (1000, 1_048_576, 1000),
];

#[test]
fn bounds_are_rounded_down(rt: HostRuntime) -> Result<(), Fail> {
    for (figure, rounded, catalogue) in BOUNDS {
        let trial = Trial::new(Rounded, FirstFit, &[figure], 0)?;
        shows(&rt, trial.engine(), &[(rounded, 0, 0, None)])?;
        let trial = Trial::new(Catalogue, BestFit, &[figure], 0)?;
        shows(&rt, trial.engine(), &[(catalogue, 0, 0, None)])?;
    }
    Ok(())
}

// Rows of calls, and the cores after them.
const AT_WORK: [(&[Row], [Core; 2]); 4] = [
    (
        &[
            (3, Admit(4, 20), Placed(1, 0)),
            (3, Admit(25, 200), Placed(2, 1)),
            (3, Wake(1), Awake(State::Ready, 23)),
            (3, Wake(2), Awake(State::Ready, 203)),
        ],
        [(1000, 200, 0, None), (150, 125, 0, None)],
    ),
    (
        &[(3, Deal, Dealt(3))],
        [(1000, 200, 0, Some(1)), (150, 125, 0, Some(2))],
    ),
    (
        &[(3, Settle(3), Clock(4)), (4, Leave(1), Until(8))],
        [(1000, 0, 200, None), (150, 125, 0, None)],
    ),
    (
        &[(8, Wake(1), Refused(Refusal::NoReservation))],
        [(1000, 0, 0, None), (150, 125, 0, None)],
    ),
];

#[test]
fn cores_at_work(rt: HostRuntime) -> Result<(), Fail> {
    let mut trial = Trial::new(Catalogue, BestFit, &[1000, 150], 3)?;
    for (rows, cores) in AT_WORK {
        trial.play(&rt, rows)?;
        shows(&rt, trial.engine(), &cores)?;
    }
    Ok(())
}

// 25 in 200 of the catalogue, woken at tick 3, after a tick.
const SECOND: Reservation = Reservation {
    number: 2,
    budget: 25,
    period: 200,
    parts: 125,
    core: 0,
    left: 24,
    deadline: 203,
    ran: 1,
    state: State::Ready,
};

// It alone is live at tick 4.
fn lists(rt: &impl Abort, engine: &Engine<Catalogue, BestFit>) -> Result<(), Fail> {
    assert_eq!(rt;
        (engine.clock(), engine.live_count(), engine.ledger_len()),
        (4, 1, 0)
    );
    assert_eq!(rt;
        (engine.live_at(0), engine.live_at(1)),
        (Some(SECOND), None)
    );
    assert_eq!(rt; engine.reservation(2), Ok(SECOND));
    for number in [0, 1, 3, 65_535, u32::MAX] {
        assert_eq!(rt; engine.reservation(number), Err(Refusal::NoReservation));
    }
    Ok(())
}

#[test]
fn reservations_at_work(rt: HostRuntime) -> Result<(), Fail> {
    let mut trial = Trial::new(Catalogue, BestFit, &[1000], 3)?;
    trial.play(
        &rt,
        &[
            (3, Admit(4, 20), Placed(1, 0)),
            (3, Admit(25, 200), Placed(2, 0)),
            (3, Leave(1), Free),
            (3, Wake(2), Awake(State::Ready, 203)),
            (4, Wake(2), Refused(Refusal::NotResting)),
        ],
    )?;
    lists(&rt, trial.engine())
}
