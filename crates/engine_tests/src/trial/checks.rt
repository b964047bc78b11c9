// Answers held to rows of calls.
use super::Trial;
use measure::Measure;
use policy::Policy;
use rules::{Answer, Call, Reservation};
use std::process::Abort;
use std::test::*;

// A tick, the call made then, and what it answers.
pub type Row = (u32, Call, Answer);

// Of what an engine shows: clock, lengths, names, and the first and the last of the live.
#[derive(Clone, Copy, PartialEq, Debug)]
pub struct Picture {
    clock: u32,
    live: usize,
    ledger: usize,
    names: [Option<u32>; 8],
    first: Option<Reservation>,
    last: Option<Reservation>,
}

impl<M: Measure + Drop, P: Policy + Drop> Trial<M, P> {
    pub fn picture(&self) -> Picture {
        let engine = self.engine();
        let names = engine.picks().names;
        Picture {
            clock: engine.clock(),
            live: engine.live_count(),
            ledger: engine.ledger_len(),
            names,
            first: engine.live_at(0),
            last: engine.live_at(engine.live_count().saturating_sub(1)),
        }
    }

    // Lets ticks pass.
    pub fn pass(&mut self, rt: &impl Abort, ticks: u32) -> Result<(), Fail> {
        for _ in 0..ticks {
            let tick = self.engine().clock();
            let next = tick.saturating_add(1);
            let told = (self.perform(Call::Deal), self.perform(Call::Settle(tick)));
            assert_eq!(rt; told, (Answer::Dealt(tick), Answer::Clock(next)));
        }
        Ok(())
    }

    // Makes the call and holds the clock and the answer to those given; a refusal changes nothing.
    fn answers(
        &mut self,
        rt: &impl Abort,
        tick: u32,
        call: Call,
        answer: Answer,
    ) -> Result<(), Fail> {
        let before = self.picture();
        let told = self.perform(call);
        assert_eq!(rt; (before.clock, call, told), (tick, call, answer));
        if let Answer::Refused(_) = told {
            assert_eq!(rt; self.picture(), before);
        }
        Ok(())
    }

    // The calls of the rows, each once its tick has come.
    pub fn play(&mut self, rt: &impl Abort, rows: &[Row]) -> Result<(), Fail> {
        for &(tick, call, answer) in rows {
            self.pass(rt, tick.saturating_sub(self.engine().clock()))?;
            self.answers(rt, tick, call, answer)?;
        }
        Ok(())
    }
}
