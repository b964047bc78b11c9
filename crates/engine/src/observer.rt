// Who is told what a run answers.
ghost use Rattle.std.specs.Prelude.{List, [], ◌∷◌, ◌++◌};
ghost use Rattle.rules.specs.Replay.{Told};
ghost use Rattle.rules.specs.Replay.{said as was_said, dealt as was_dealt};

use rules::{Answer, Call};

// An observer that was told a list of things shows it: each thing told makes the list longer by that thing.
pub trait Observer {
    ghost shows: { Self → List Told → Type 0 };

    // A call made at this tick was answered so.
    fn said(&mut self, tick: u32, call: Call, answer: Answer)
        ensures { (l : List Told) → shows self.old l → shows self.new (l ++ was_said tick call answer ∷ []) };

    // A deal named these, one or none for each core.
    fn dealt(&mut self, names: &[Option<u32>])
        ensures { (l : List Told) → shows self.old l → shows self.new (l ++ was_dealt names.now ∷ []) };
}
