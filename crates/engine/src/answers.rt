// What the calls answer, and the round that a deal hands out.
use rules::State;
use terms::Refusal;

mod told;

// A reservation just admitted: its number and its core.
#[derive(Clone, Copy, Debug, PartialEq, Eq)]
pub struct Placement {
    pub number: u32,
    pub core: u32,
}

// A reservation just woken: its state and its deadline.
#[derive(Clone, Copy, Debug, PartialEq, Eq)]
pub struct Awake {
    pub state: State,
    pub deadline: u32,
}

// The tick until which the core left keeps counting the parts, none where they are free.
#[derive(Clone, Copy, Debug, PartialEq, Eq)]
pub struct Departure {
    pub until: Option<u32>,
}

// A round dealt. It bears the tick that it was dealt at, and must be settled: it cannot be copied or let go.
#[derive(Debug, PartialEq, Eq)]
pub struct Round {
    pub(crate) tick: u32,
}

// A settle refused, with the round handed back.
#[derive(Debug, PartialEq, Eq)]
pub struct Unsettled {
    pub refusal: Refusal,
    pub round: Round,
}

// A making refused, with the measure and the policy handed back.
#[derive(Debug, Drop, PartialEq, Eq)]
pub struct Unmade<M, P> {
    pub refusal: Refusal,
    pub measure: M,
    pub policy: P,
}
