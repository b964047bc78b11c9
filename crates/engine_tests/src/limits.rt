// Numbers, live reservations, ledger entries and ticks at their limits.
use crate::prelude::*;
use rules::Answer::*;
use rules::Call::*;
use std::test::*;

#[test]
fn numbers_are_given_once(rt: HostRuntime) -> Result<(), Fail> {
    let mut trial = Trial::new(Rounded, FirstFit, &[1000], 0)?;
    for number in 1..65_472 {
        trial.play(
            &rt,
            &[
                (0, Admit(1, 64), Placed(number, 0)),
                (0, Leave(number), Free),
            ],
        )?;
    }
    for number in 65_472..65_536 {
        trial.play(&rt, &[(0, Admit(1, 64), Placed(number, 0))])?;
    }
    trial.play(
        &rt,
        &[
            // There are 64 live, no number is left, and the core is full.
            (0, Admit(0, 64), Refused(Refusal::Limits)),
            (0, Admit(1, 64), Refused(Refusal::TooMany)),
            (0, Deal, Dealt(0)),
            (0, Admit(1, 64), Refused(Refusal::RoundOut)),
            (0, Settle(0), Clock(1)),
            (1, Leave(65_500), Free),
            (1, Admit(1, 64), Refused(Refusal::NumbersGone)),
            (1, Admit(1, 63), Refused(Refusal::NumbersGone)),
            (1, Wake(65_500), Refused(Refusal::NoReservation)),
        ],
    )
}

#[test]
fn sixty_four_are_live(rt: HostRuntime) -> Result<(), Fail> {
    let mut trial = Trial::new(Rounded, FirstFit, &[1000], 0)?;
    for number in 1..65 {
        trial.play(&rt, &[(0, Admit(1, 64), Placed(number, 0))])?;
    }
    trial.play(
        &rt,
        &[
            // The core is full too.
            (0, Admit(1, 64), Refused(Refusal::TooMany)),
            (0, Leave(64), Free),
            (0, Admit(1, 63), Refused(Refusal::NoRoom)),
            (0, Admit(1, 64), Placed(65, 0)),
        ],
    )
}

#[test]
fn the_ledger_holds_128_entries(rt: HostRuntime) -> Result<(), Fail> {
    let mut trial = Trial::new(Rounded, FirstFit, &[1000, 1000, 1], 0)?;
    trial.play(
        &rt,
        &[
            (0, Admit(1, 1000), Placed(1, 0)),
            (0, Wake(1), Awake(State::Ready, 1000)),
            (1, Admit(1, 1000), Placed(2, 0)),
            (1, Wake(2), Awake(State::Ready, 1001)),
            (1, Admit(1, 2), Placed(3, 0)),
        ],
    )?;
    // Spent, the first leaves an entry at each move.
    for _ in 0..64 {
        trial.play(
            &rt,
            &[(1, Move(1, 1), Until(1000)), (1, Move(1, 0), Until(1000))],
        )?;
    }
    assert_eq!(rt; trial.engine().ledger_len(), 128);
    trial.play(
        &rt,
        &[
            (1, Leave(1), Refused(Refusal::LedgerFull)),
            (1, Move(1, 1), Refused(Refusal::LedgerFull)),
            // The earlier checks of a move, with the later ones failing too.
            (1, Move(4, 3), Refused(Refusal::NoCore)),
            (1, Move(4, 1), Refused(Refusal::NoReservation)),
            (1, Move(2, 0), Refused(Refusal::SameCore)),
            (1, Move(2, 2), Refused(Refusal::Behind)),
            (1, Move(1, 2), Refused(Refusal::NoRoom)),
            (1, Deal, Dealt(1)),
            (1, Leave(1), Refused(Refusal::RoundOut)),
            (1, Move(1, 1), Refused(Refusal::RoundOut)),
            (1, Settle(1), Clock(2)),
            // One that is owed nothing needs no entry.
            (2, Move(3, 1), Free),
            (2, Leave(3), Free),
            (999, Leave(1), Refused(Refusal::LedgerFull)),
            // All entries have gone.
            (1000, Leave(1), Free),
            (1000, Leave(2), Until(1001)),
        ],
    )?;
    assert_eq!(rt; trial.engine().ledger_len(), 1);
    Ok(())
}

#[test]
fn the_clock_ends(rt: HostRuntime) -> Result<(), Fail> {
    let mut trial = Trial::new(Rounded, FirstFit, &[1000], 3_999_999_999)?;
    trial.play(
        &rt,
        &[
            (3_999_999_999, Admit(1, 10), Placed(1, 0)),
            (3_999_999_999, Wake(1), Awake(State::Ready, 4_000_000_009)),
            (END, Deal, Refused(Refusal::ClockEnd)),
            // The other calls are taken still.
            (END, Rest(1), Left(0)),
            (END, Leave(1), Until(4_000_000_009)),
            (END, Admit(1, 1_000_000), Placed(2, 0)),
            (END, Wake(2), Awake(State::Ready, 4_001_000_000)),
            (END, Deal, Refused(Refusal::ClockEnd)),
        ],
    )?;
    Trial::new(Rounded, FirstFit, &[1000], END)?.play(
        &rt,
        &[(END, Deal, Refused(Refusal::ClockEnd))],
    )
}
