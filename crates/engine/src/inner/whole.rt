// The whole of a measure.
ghost use Rattle.std.specs.Prelude.{◌≡◌, ◌≤◌};

use measure::Measure;

// The parts of a whole core, within the limits of every measure.
#[derive(Clone, Copy)]
pub struct Whole {
    parts: u32,
    ghost within: { parts ≤ 4000000 },
}

impl Whole {
    pub fn of<M: Measure>(measure: &M) -> Whole
        ensures { result.parts ≡ M.Measure.whole measure.now }
    {
        Whole {
            parts: measure.whole(),
        }
    }

    pub fn parts(self) -> u32
        ensures answer { result ≡ self.parts }
        ensures high { result ≤ 4000000 }
    {
        self.parts
    }
}
