// The plain types that the code and the definitions share.
use terms::Refusal;

// What a reservation wants: a ready one has budget left, a spent one has none, a resting one wants no ticks.
#[derive(Clone, Copy, Debug, Default, PartialEq, Eq)]
pub enum State {
    Ready,
    Spent,
    #[default]
    Resting,
}

// A live reservation: its terms, its parts as measured on admission, its core, the budget left, the deadline and the ticks run.
#[derive(Clone, Copy, Debug, Default, PartialEq, Eq)]
pub struct Reservation {
    pub number: u32,
    pub budget: u32,
    pub period: u32,
    pub parts: u32,
    pub core: u32,
    pub left: u32,
    pub deadline: u32,
    pub ran: u32,
    pub state: State,
}

// What a core still counts of a reservation that left it, until the lapse tick.
#[derive(Clone, Copy, Debug, PartialEq, Eq, PartialOrd, Ord)]
pub struct Entry {
    pub lapse: u32,
    pub number: u32,
    pub core: u32,
    pub parts: u32,
}

// A call with what it is given; a settle is given the tick that its round bears.
#[derive(Clone, Copy, Debug, PartialEq, Eq)]
pub enum Call {
    Admit(u32, u32),
    Wake(u32),
    Rest(u32),
    Leave(u32),
    Move(u32, u32),
    Deal,
    Settle(u32),
}

// What a call answers: number and core; state and deadline; the budget left; the lapse tick of the parts left behind, or that
// they are free; the tick of the round dealt; the clock; or a refusal, which is a case like the others: each is printed and told.
#[derive(Clone, Copy, Debug, PartialEq, Eq)]
pub enum Answer {
    Placed(u32, u32),
    Awake(State, u32),
    Left(u32),
    Until(u32),
    Free,
    Dealt(u32),
    Clock(u32),
    Refused(Refusal),
}
