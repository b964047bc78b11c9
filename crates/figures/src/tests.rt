// Terms at their limits, measures, fits and refusals by tables.
use super::{parts, worked};
use measure::{Catalogue, Measure, Rounded};
use policy::{BestFit, FirstFit, Policy, WorstFit};
use std::test::Fail;
use terms::{Refusal, Terms};

#[test]
fn figures_are_shown(rt: HostRuntime) {
    assert!(rt; worked());
}

#[test]
fn terms_keep_to_their_limits(rt: HostRuntime) -> Result<(), Fail> {
    for (budget, period) in [
        (6, 5),
        (1, 1_000_001),
        (0, 5),
        (0, 0),
        (1, 0),
        (u32::MAX, u32::MAX),
    ] {
        assert_eq!(rt; Terms::new(budget, period).map_err(Refusal::number), Err(4));
        assert_eq!(rt; parts(&Rounded, budget, period), None);
    }
    for (budget, period) in [(1_000_000, 1_000_000), (1, 1), (1, 1_000_000), (5, 5)] {
        let terms = Terms::new(budget, period)?;
        assert_eq!(rt; terms.budget(), budget);
        assert_eq!(rt; terms.period(), period);
    }
    Ok(())
}

#[test]
fn rounded_parts_cover(rt: HostRuntime) -> Result<(), Fail> {
    let table = [
        (1, 1, 1_048_576),
        (1_000_000, 1_000_000, 1_048_576),
        (999_999, 1_000_000, 1_048_575),
        (1, 2, 524_288),
        (1, 3, 349_526),
        (2, 3, 699_051),
        (1, 1_000_000, 2),
    ];
    for (budget, period, expected) in table {
        assert_eq!(rt; parts(&Rounded, budget, period), Some(expected));
    }
    // Three thirds and one tick in a million are more than a core.
    let third = Rounded.parts(Terms::new(1, 3)?).ok_or("a third is taken")?;
    let least = Rounded
        .parts(Terms::new(1, 1_000_000)?)
        .ok_or("the least is taken")?;
    assert!(rt; third as u64 * 3 + least as u64 > Rounded.whole() as u64);
    Ok(())
}

#[test]
fn catalogue_takes_its_rows(rt: HostRuntime) {
    let table = [
        (4, 20, 200),
        (10, 50, 220),
        (3, 100, 30),
        (7, 30, 234),
        (1, 3, 334),
        (25, 200, 125),
        (40, 1000, 40),
        (5, 7, 715),
        (1, 1_000_000, 1),
        (60, 240, 250),
    ];
    for (budget, period, expected) in table {
        assert_eq!(rt; parts(&Catalogue, budget, period), Some(expected));
    }
    for (budget, period) in [(1, 4), (4, 21), (5, 20), (1, 5), (8, 40), (20, 4)] {
        assert_eq!(rt; parts(&Catalogue, budget, period), None);
    }
    assert_eq!(rt; Catalogue.whole(), 1000);
}

// The cores that first, worst and best fit name.
fn named(rooms: &[u32], parts: u32) -> [Option<usize>; 3] {
    [
        FirstFit.choose(rooms, parts),
        WorstFit.choose(rooms, parts),
        BestFit.choose(rooms, parts),
    ]
}

#[test]
fn fits_name_a_core(rt: HostRuntime) {
    assert_eq!(rt; named(&[3, 9, 5], 4), [Some(1), Some(1), Some(2)]);
    assert_eq!(rt; named(&[9, 4, 4, 9], 4), [Some(0), Some(0), Some(1)]);
    assert_eq!(rt; named(&[3, 5, 9, 9, 5], 4), [Some(1), Some(2), Some(1)]);
    assert_eq!(rt; named(&[7, 6, 5, 4], 4), [Some(0), Some(0), Some(3)]);
    assert_eq!(rt; named(&[4, 5, 6, 7], 5), [Some(1), Some(3), Some(1)]);
    assert_eq!(rt;
        named(&[1, 2, 3, 4, 5, 6, 7, 8], 8),
        [Some(7), Some(7), Some(7)]
    );
    assert_eq!(rt;
        named(&[0, u32::MAX], u32::MAX),
        [Some(1), Some(1), Some(1)]
    );
    assert_eq!(rt; named(&[0, 0], 0), [Some(0), Some(0), Some(0)]);
}

#[test]
fn fits_name_none(rt: HostRuntime) {
    assert_eq!(rt; named(&[3, 2, 1], 4), [None, None, None]);
    assert_eq!(rt; named(&[0], 1), [None, None, None]);
    assert_eq!(rt; named(&[], 0), [None, None, None]);
}

#[test]
fn refusals_have_their_numbers(rt: HostRuntime) {
    let table = [
        (Refusal::Cores, 1),
        (Refusal::Bandwidth, 2),
        (Refusal::Start, 3),
        (Refusal::Limits, 4),
        (Refusal::NotTaken, 5),
        (Refusal::NoCore, 6),
        (Refusal::RoundOut, 11),
        (Refusal::WrongRound, 12),
        (Refusal::ClockEnd, 13),
        (Refusal::NoReservation, 14),
        (Refusal::TooMany, 15),
        (Refusal::NumbersGone, 16),
        (Refusal::NoRoom, 17),
        (Refusal::NotResting, 18),
        (Refusal::Resting, 19),
        (Refusal::SameCore, 20),
        (Refusal::Behind, 21),
        (Refusal::LedgerFull, 22),
        (Refusal::CalendarFull, 23),
    ];
    for (refusal, number) in table {
        assert_eq!(rt; refusal.number(), number);
        assert_eq!(rt; refusal == Refusal::NoRoom, number == 17);
    }
}

#[test]
fn refusals_print_their_numbers(rt: HostRuntime) -> Result<(), Fail> {
    let text = format!(in rt.alloc(); "{} {}", Refusal::Cores, Refusal::CalendarFull)?;
    assert_eq!(rt; text.as_str(), "1 23");
    Ok(())
}
