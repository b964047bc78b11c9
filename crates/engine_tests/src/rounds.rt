// Calls while a round is out, and rounds that another engine dealt.
use crate::prelude::*;
use rules::Answer::*;
use rules::Call::*;
use std::process::Abort;
use std::test::*;

#[test]
fn a_round_is_out(rt: HostRuntime) -> Result<(), Fail> {
    Trial::new(Catalogue, FirstFit, &[1000, 500], 7)?.play(
        &rt,
        &[
            (7, Admit(1, 3), Placed(1, 0)),
            (7, Admit(4, 20), Placed(2, 0)),
            (7, Wake(1), Awake(State::Ready, 10)),
            (7, Deal, Dealt(7)),
            // Terms and cores are looked at before the round,
            (7, Admit(6, 5), Refused(Refusal::Limits)),
            (7, Admit(1, 4), Refused(Refusal::NotTaken)),
            (7, Move(1, 2), Refused(Refusal::NoCore)),
            // and the rest after it.
            (7, Admit(1, 3), Refused(Refusal::RoundOut)),
            (7, Admit(5, 7), Refused(Refusal::RoundOut)),
            (7, Wake(1), Refused(Refusal::RoundOut)),
            (7, Wake(2), Refused(Refusal::RoundOut)),
            (7, Wake(3), Refused(Refusal::RoundOut)),
            (7, Rest(1), Refused(Refusal::RoundOut)),
            (7, Rest(2), Refused(Refusal::RoundOut)),
            (7, Rest(3), Refused(Refusal::RoundOut)),
            (7, Leave(1), Refused(Refusal::RoundOut)),
            (7, Leave(3), Refused(Refusal::RoundOut)),
            (7, Move(1, 0), Refused(Refusal::RoundOut)),
            (7, Move(1, 1), Refused(Refusal::RoundOut)),
            (7, Move(3, 1), Refused(Refusal::RoundOut)),
            (7, Deal, Refused(Refusal::RoundOut)),
            (7, Settle(7), Clock(8)),
            (8, Move(1, 1), Until(10)),
        ],
    )
}

// The round in hand of one is refused by the other's engine, which is as it was.
fn refuses<M: Measure + Drop, P: Policy + Drop, N: Measure + Drop, Q: Policy + Drop>(
    rt: &impl Abort,
    from: &mut Trial<M, P>,
    to: &mut Trial<N, Q>,
) -> Result<(), Fail> {
    let before = to.picture();
    assert_eq!(rt; from.offer(to), Some(Refused(Refusal::WrongRound)));
    assert_eq!(rt; to.picture(), before);
    Ok(())
}

// The ticks that reservation 1 has run.
fn ran<M: Measure + Drop, P: Policy + Drop>(trial: &Trial<M, P>) -> Option<u32> {
    trial.engine().reservation(1).ok().map(|row| row.ran)
}

#[test]
fn a_round_of_another_engine(rt: HostRuntime) -> Result<(), Fail> {
    let mut here = Trial::new(Rounded, FirstFit, &[1000], 5)?;
    let mut there = Trial::new(Catalogue, WorstFit, &[500, 1000], 5)?;
    here.play(
        &rt,
        &[
            (5, Admit(1, 3), Placed(1, 0)),
            (5, Wake(1), Awake(State::Ready, 8)),
        ],
    )?;
    there.play(
        &rt,
        &[
            (5, Admit(1, 3), Placed(1, 1)),
            (5, Wake(1), Awake(State::Ready, 8)),
            (5, Deal, Dealt(5)),
        ],
    )?;
    // No round is out here.
    refuses(&rt, &mut there, &mut here)?;
    // One of the same tick is taken, and charges whom this engine named.
    here.play(&rt, &[(5, Deal, Dealt(5))])?;
    assert_eq!(rt; there.offer(&mut here), Some(Clock(6)));
    assert_eq!(rt; (ran(&here), ran(&there)), (Some(1), Some(0)));
    // One of tick 5 is in hand there, and one of tick 6 here.
    here.play(&rt, &[(6, Deal, Dealt(6))])?;
    refuses(&rt, &mut there, &mut here)?;
    refuses(&rt, &mut here, &mut there)?;
    there.play(&rt, &[(5, Settle(5), Clock(6))])?;
    assert_eq!(rt; (ran(&here), ran(&there)), (Some(1), Some(1)));
    // No round is out there.
    refuses(&rt, &mut here, &mut there)?;
    here.play(&rt, &[(6, Settle(6), Clock(7))])
}
