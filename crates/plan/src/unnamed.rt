// Numbers that name nothing.
ghost use Rattle.std.specs.Prelude.{◌++◌, Some, codes, decimal};

use std::error::Error;
use std::fmt;

// A number that names no kind of event and no policy.
#[derive(Clone, Copy, PartialEq, Eq, Debug)]
pub struct Unnamed(pub u32);

impl fmt::Display for Unnamed {
    ghost output = { λ x. Some (decimal x.0 ++ codes " names nothing") };

    fn fmt<W: fmt::Write>(&self, f: &mut fmt::Formatter<W>) -> fmt::Result {
        let n = self.0;
        write!(f, "{n} names nothing")
    }
}

impl Error for Unnamed {}
