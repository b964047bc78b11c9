// The constant bandwidth server of one reservation.
ghost use Rattle.std.specs.Prelude.{◌≡◌, ◌≤◌, true};
ghost use Rattle.rules.specs.Setup.{last_tick};
ghost use Rattle.rules.specs.Server.{charged, filled_to, is_behind, is_ready, keeps, lapse as lapse_tick, wanting, woken};
ghost use Rattle.table.specs.Events.{verdict, after_event};
ghost use Rattle.table.specs.Rows.{fit};

use rules::{MOST_CORES, Reservation, State};
use terms::Refusal;

// The name dealt for each of eight cores, or none: plain, since callers make and read it.
#[derive(Clone, Copy)]
pub struct Picks {
    pub names: [Option<u32>; MOST_CORES],
}

// What happens to a reservation.
#[derive(Clone, Copy)]
pub enum Event {
    Wake,
    Rest,
    Charge,
    Refill,
}

// Changes a reservation in its place by an event at the tick `clock`, unless the event is refused. A row is a plain reservation, so what
// holds of it at this clock is asked here.
pub fn change(row: &mut Reservation, event: Event, clock: u32) -> Result<(), Refusal>
    requires { (fit clock row.old ≡ true) × (clock ≤ last_tick) }
    ensures answer { result ≡ verdict event row.old }
    ensures next { row.new ≡ after_event event clock row.old }
{
    match (row.state, event) {
        (State::Resting, Event::Wake) => wake(row, clock),
        (_, Event::Wake) => return Err(Refusal::NotResting),
        (State::Resting, Event::Rest) => return Err(Refusal::Resting),
        (_, Event::Rest) => row.state = State::Resting,
        (_, Event::Charge) => charge(row),
        (State::Spent, Event::Refill) if row.deadline == clock => fill(row, clock + row.period),
        (_, Event::Refill) => {}
    }
    Ok(())
}

// Keeps budget and deadline where the budget left is below the reserved share of the time to the deadline, else fills it.
fn wake(row: &mut Reservation, clock: u32)
    requires { (fit clock row.old ≡ true) × (clock ≤ last_tick) }
    ensures { row.new ≡ woken clock row.old }
{
    if keeps(row, clock) {
        row.state = wanting(row.left);
    } else {
        fill(row, clock + row.period);
    }
}

fn keeps(row: &Reservation, clock: u32) -> bool
    ensures { result ≡ keeps clock row.now }
{
    let share = row.deadline.saturating_sub(clock) as u64 * row.budget as u64;
    (row.left as u64 * row.period as u64) < share
}

pub fn charge(row: &mut Reservation)
    requires { row.old.ran ≤ last_tick }
    ensures { row.new ≡ charged row.old }
{
    row.left = row.left.saturating_sub(1);
    row.ran += 1;
    row.state = wanting(row.left);
}

fn fill(row: &mut Reservation, deadline: u32)
    ensures { row.new ≡ filled_to deadline row.old }
{
    row.left = row.budget;
    row.deadline = deadline;
    row.state = State::Ready;
}

// The state of one that wants ticks.
fn wanting(left: u32) -> State
    ensures { result ≡ wanting left }
{
    if left == 0 {
        State::Spent
    } else {
        State::Ready
    }
}

pub fn is_ready(row: &Reservation) -> bool
    ensures { result ≡ is_ready row.now.state }
{
    row.state == State::Ready
}

// The lapse tick of a reservation; with no budget, which terms never have, it is the deadline.
pub fn lapse(row: &Reservation) -> u32
    ensures { result ≡ lapse_tick row.now }
{
    if row.budget == 0 {
        return row.deadline;
    }
    let time = row.left as u64 * row.period as u64 / row.budget as u64;
    (row.deadline as u64).saturating_sub(time) as u32
}

// Whether a reservation is ready and has more budget left than its share gives until the deadline.
pub fn is_behind(row: &Reservation, clock: u32) -> bool
    ensures { result ≡ is_behind clock row.now }
{
    is_ready(row) && !keeps(row, clock)
}
