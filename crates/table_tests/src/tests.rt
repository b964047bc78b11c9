// Each table is driven by its own calls.
use rules::{Reservation, State};
use std::test::Fail;
use table::{Picks, Table, is_behind, lapse};
use terms::{Refusal, Terms};

// The number of the refusal, if one is answered.
fn refusal<T: Drop>(answer: Result<T, Refusal>) -> Option<u32> {
    answer.err().map(|refusal| refusal.number())
}

// Lets ticks pass, charging whom the table names for each.
fn run(table: &mut Table, ticks: u32) -> Result<(), Refusal> {
    for _ in 0..ticks {
        let picks = table.picks(8);
        table.tick(&picks)?;
    }
    Ok(())
}

// A table with one reservation on core 0, awake since tick 0.
fn awake(budget: u32, period: u32) -> Result<Table, Refusal> {
    let mut table = Table::new(0)?;
    table.admit(1, Terms::new(budget, period)?, 1, 0)?;
    table.wake(1)?;
    Ok(table)
}

#[test]
fn sixty_four_are_live(rt: HostRuntime) -> Result<(), Fail> {
    let mut table = Table::new(7)?;
    let terms = Terms::new(1, 2)?;
    for number in 1..65 {
        assert_eq!(rt;
            refusal(table.admit(number, terms, number, number % 8)),
            None
        );
    }
    assert_eq!(rt; table.len(), 64);
    assert_eq!(rt; refusal(table.admit(65, terms, 1, 0)), Some(15));
    assert_eq!(rt; refusal(table.admit(65, terms, 1, 8)), Some(6));
    assert_eq!(rt; refusal(table.remove(33)), None);
    assert_eq!(rt; refusal(table.remove(33)), Some(14));
    assert_eq!(rt; refusal(table.admit(65, terms, 1, 0)), None);
    assert_eq!(rt; table.len(), 64);
    // 8, 16, .. 64 and the newcomer
    assert_eq!(rt; table.live_parts(0), 289);
    Ok(())
}

#[test]
fn the_clock_ends(rt: HostRuntime) -> Result<(), Fail> {
    assert_eq!(rt; refusal(Table::new(4_000_000_001)), Some(3));
    let mut table = Table::new(3_999_999_999)?;
    let none = Picks { names: [None; 8] };
    assert_eq!(rt; table.tick(&none)?, 4_000_000_000);
    assert_eq!(rt; refusal(table.tick(&none)), Some(13));
    assert_eq!(rt; table.clock(), 4_000_000_000);
    Ok(())
}

// Ticks served, the tick of the wake, and the deadline and the budget then.
const WAKES: [(u32, u32, u32, u32); 3] = [(3, 5, 10, 2), (2, 5, 15, 5), (3, 6, 16, 5)];

#[test]
fn wake_keeps_or_fills(rt: HostRuntime) -> Result<(), Fail> {
    for (served, tick, deadline, left) in WAKES {
        let mut table = awake(5, 10)?;
        run(&mut table, served)?;
        assert_eq!(rt; table.rest(1)?, 5 - served.min(5));
        assert_eq!(rt; refusal(table.rest(1)), Some(19));
        run(&mut table, tick.saturating_sub(served))?;
        let (_, until) = table.wake(1)?;
        assert_eq!(rt; until, deadline);
        assert_eq!(rt; refusal(table.wake(1)), Some(18));
        let row = table.find(1).ok_or("not live")?;
        assert_eq!(rt; row.left, left);
        assert_eq!(rt; row.ran, served);
    }
    Ok(())
}

#[test]
fn spent_until_the_deadline(rt: HostRuntime) -> Result<(), Fail> {
    let mut table = awake(2, 5)?;
    run(&mut table, 2)?;
    assert_eq!(rt; table.picks(8).names[0], None);
    run(&mut table, 2)?;
    assert_eq!(rt; table.picks(8).names[0], None);
    run(&mut table, 1)?;
    assert_eq!(rt; table.picks(8).names[0], Some(1));
    let row = table.row(0).ok_or("not live")?;
    assert_eq!(rt; row.deadline, 10);
    assert_eq!(rt; row.left, 2);
    assert_eq!(rt; row.ran, 2);
    Ok(())
}

#[test]
fn ties_go_by_number(rt: HostRuntime) -> Result<(), Fail> {
    let mut table = Table::new(0)?;
    for number in [9, 4, 6] {
        table.admit(number, Terms::new(1, 10)?, 1, 2)?;
        table.wake(number)?;
    }
    assert_eq!(rt; table.picks(8).names[2], Some(4));
    // an earlier deadline goes before a lower number
    table.admit(12, Terms::new(1, 9)?, 1, 2)?;
    table.wake(12)?;
    assert_eq!(rt; table.picks(8).names[2], Some(12));
    assert_eq!(rt; table.picks(2).names[2], None);
    assert_eq!(rt; refusal(table.transfer(12, 8)), Some(6));
    assert_eq!(rt; refusal(table.transfer(13, 5)), Some(14));
    table.transfer(12, 5)?;
    let picks = table.picks(8);
    assert_eq!(rt; picks.names[2], Some(4));
    assert_eq!(rt; picks.names[5], Some(12));
    Ok(())
}

// A ready reservation with period 10 and deadline 10.
fn ready(budget: u32, left: u32) -> Reservation {
    Reservation {
        number: 1,
        budget,
        period: 10,
        parts: 1,
        core: 0,
        left,
        deadline: 10,
        ran: 0,
        state: State::Ready,
    }
}

#[test]
fn lapse_and_behind(rt: HostRuntime) {
    assert_eq!(rt; lapse(&ready(3, 1)), 7);
    assert_eq!(rt; lapse(&ready(5, 2)), 6);
    assert_eq!(rt; lapse(&ready(0, 2)), 10);
    assert!(rt; !is_behind(&ready(5, 2), 5));
    assert!(rt; is_behind(&ready(5, 2), 6));
    assert!(rt; is_behind(&ready(5, 2), 11));
}
