// Waking, resting, leaving, moving, dealing and placing.
use crate::prelude::*;
use rules::Answer::*;
use rules::Call::*;
use std::process::Abort;
use std::test::*;

#[test]
fn wakes_rests_and_leaves(rt: HostRuntime) -> Result<(), Fail> {
    Trial::new(Rounded, FirstFit, &[1000], 0)?.play(
        &rt,
        &[
            (0, Admit(5, 10), Placed(1, 0)),
            (0, Rest(1), Refused(Refusal::Resting)),
            (0, Wake(1), Awake(State::Ready, 10)),
            (0, Wake(1), Refused(Refusal::NotResting)),
            (3, Rest(1), Left(2)),
            // 20 is below 25: kept.
            (5, Wake(1), Awake(State::Ready, 10)),
            (7, Wake(1), Refused(Refusal::NotResting)),
            (7, Rest(1), Left(0)),
            (7, Wake(1), Awake(State::Spent, 10)),
            // Filled at tick 10; 50 is not below 50.
            (10, Rest(1), Left(5)),
            (10, Wake(1), Awake(State::Ready, 20)),
            (12, Rest(1), Left(3)),
            // 30 is not below 30: filled.
            (14, Wake(1), Awake(State::Ready, 24)),
            (15, Leave(1), Until(16)),
            (15, Wake(1), Refused(Refusal::NoReservation)),
            (15, Rest(1), Refused(Refusal::NoReservation)),
            (15, Leave(1), Refused(Refusal::NoReservation)),
            (15, Move(1, 0), Refused(Refusal::NoReservation)),
            // A third of 10 is rounded down.
            (15, Admit(3, 10), Placed(2, 0)),
            (15, Wake(2), Awake(State::Ready, 25)),
            (17, Leave(2), Until(22)),
            // The deadline has passed: filled.
            (17, Admit(1, 2), Placed(3, 0)),
            (17, Wake(3), Awake(State::Ready, 19)),
            (18, Rest(3), Left(0)),
            (30, Wake(3), Awake(State::Ready, 32)),
        ],
    )
}

// 2 in 5 and 5 in 10 share a core. The second has 2 left at tick 5, and at tick 6 still, since the first goes before it.
fn shared(rt: &impl Abort, rows: &[Row]) -> Result<(), Fail> {
    let mut trial = Trial::new(Rounded, FirstFit, &[1000, 1000], 0)?;
    trial.play(
        rt,
        &[
            (0, Admit(2, 5), Placed(1, 0)),
            (0, Admit(5, 10), Placed(2, 0)),
            (0, Wake(1), Awake(State::Ready, 5)),
            (0, Wake(2), Awake(State::Ready, 10)),
        ],
    )?;
    trial.play(rt, rows)
}

#[test]
fn a_move_at_five_and_at_six(rt: HostRuntime) -> Result<(), Fail> {
    shared(&rt, &[(5, Move(2, 1), Until(6))])?;
    // Once spent it is not behind.
    shared(
        &rt,
        &[
            (6, Move(2, 1), Refused(Refusal::Behind)),
            (9, Move(2, 1), Until(10)),
        ],
    )
}

#[test]
fn ties_go_by_number(rt: HostRuntime) -> Result<(), Fail> {
    Trial::new(Rounded, FirstFit, &[1000], 0)?.play(
        &rt,
        &[
            (0, Admit(2, 10), Placed(1, 0)),
            (0, Admit(2, 10), Placed(2, 0)),
            (0, Admit(2, 9), Placed(3, 0)),
            (0, Wake(2), Awake(State::Ready, 10)),
            (0, Wake(1), Awake(State::Ready, 10)),
            (0, Wake(3), Awake(State::Ready, 9)),
            // An earlier deadline goes before a lower number,
            (1, Rest(3), Left(1)),
            // and of two that are equal the lower number goes first.
            (2, Rest(1), Left(1)),
            (3, Rest(2), Left(1)),
        ],
    )
}

// Quarters are placed on these cores, in turn, and then nowhere.
fn places<M: Measure + Drop, P: Policy + Drop>(
    rt: &impl Abort,
    measure: M,
    policy: P,
    cores: [u32; 8],
) -> Result<(), Fail> {
    let mut trial = Trial::new(measure, policy, &[700, 1000, 500], 0)?;
    for (number, core) in (1..).zip(cores) {
        trial.play(rt, &[(0, Admit(60, 240), Placed(number, core))])?;
    }
    trial.play(rt, &[(0, Admit(60, 240), Refused(Refusal::NoRoom))])
}

#[test]
fn policies_place(rt: HostRuntime) -> Result<(), Fail> {
    places(&rt, Rounded, FirstFit, [0, 0, 1, 1, 1, 1, 2, 2])?;
    places(&rt, Rounded, WorstFit, [1, 1, 0, 1, 2, 0, 1, 2])?;
    places(&rt, Rounded, BestFit, [2, 2, 0, 0, 1, 1, 1, 1])?;
    places(&rt, Catalogue, FirstFit, [0, 0, 1, 1, 1, 1, 2, 2])?;
    places(&rt, Catalogue, WorstFit, [1, 1, 0, 1, 2, 0, 1, 2])?;
    places(&rt, Catalogue, BestFit, [2, 2, 0, 0, 1, 1, 1, 1])
}
