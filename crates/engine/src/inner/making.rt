// The making of an engine's figures.
ghost use Rattle.std.specs.Prelude.{◌≡◌, None};
ghost use Rattle.rules.specs.Setup.{making};
ghost use Rattle.engine.specs.View.{view, figures_of, opened};

use super::Inner;
use arrayvec::ArrayVec;
use ledger::Ledger;
use table::Table;

impl Inner {
    // Figures of a B for each core, with none live and the clock at the start.
    pub fn new(figures: &[u32], start: u32) -> Inner
        requires { making figures.now start ≡ None }
        ensures figures { figures_of result ≡ figures.now }
        ensures start { result.start ≡ start }
        ensures view { view result ≡ opened start }
    {
        Inner {
            figures: ArrayVec::try_from(figures).unwrap(),
            start,
            table: Table::new(start).unwrap(),
            ledger: Ledger::new(),
            given: 0,
            round: None,
        }
    }
}
