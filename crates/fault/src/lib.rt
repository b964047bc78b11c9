// What can be wrong with a plan, in three layers: bits, inside a record, inside the plan.
#![tactic(auto)]

ghost use Rattle.std.specs.Prelude.{◌≡◌, ◌++◌, Some, codes, decimal};
ghost use Rattle.fault.specs.declared.PlanFault.TheVariants.{Record};
ghost use Rattle.fault.specs.declared.RecordFault.TheVariants.{Bits};
ghost use Rattle.fault.specs.Faults.{cause_number, layer_word, flaw_cause, plan_told, fault_line};

use std::{error, fmt};

// The bytes of the longest plan.
pub const LONGEST_PLAN: usize = 65_536;

#[derive(Clone, Copy, PartialEq, Eq, Debug)]
pub enum Cause {
    TooLong = 30,
    Short = 31,
    Mark = 32,
    Edition = 33,
    Spare = 34,
    Kind = 35,
    Range = 36,
    Trailing = 37,
}

#[derive(Clone, Copy, PartialEq, Eq, Debug)]
pub enum Layer {
    Bits,
    Record,
    Plan,
}

// Where a field starts: its byte in the plan, from 0, and its record, 0 for the header.
#[derive(Clone, Copy, PartialEq, Eq, Debug)]
pub struct Spot {
    pub byte: usize,
    pub number: usize,
}

// The input ends before the field that starts here is complete.
#[derive(Clone, Copy, Debug)]
pub struct BitFault {
    pub at: Spot,
}

// What a complete field can have wrong.
#[derive(Clone, Copy, Debug)]
pub enum Flaw {
    Mark,
    Edition,
    Spare,
    Kind,
    Range,
}

#[derive(Clone, Copy, Debug)]
pub enum RecordFault {
    Bits(BitFault),
    Field(Flaw, Spot),
}

#[derive(Clone, Copy, Debug)]
pub enum PlanFault {
    TooLong,
    Record(RecordFault),
    Trailing(Spot),
}

impl From<BitFault> for RecordFault {
    ghost from_gives = { λ e r. r ≡ Bits e };

    fn from(fault: BitFault) -> RecordFault {
        RecordFault::Bits(fault)
    }
}

impl From<RecordFault> for PlanFault {
    ghost from_gives = { λ e r. r ≡ Record e };

    fn from(fault: RecordFault) -> PlanFault {
        PlanFault::Record(fault)
    }
}

impl From<Flaw> for Cause {
    ghost from_gives = { λ flaw r. r ≡ flaw_cause flaw };

    fn from(flaw: Flaw) -> Cause {
        match flaw {
            Flaw::Mark => Cause::Mark,
            Flaw::Edition => Cause::Edition,
            Flaw::Spare => Cause::Spare,
            Flaw::Kind => Cause::Kind,
            Flaw::Range => Cause::Range,
        }
    }
}

impl Cause {
    // One cast of the enum; `From` would be a second way to the same.
    pub fn number(self) -> u8
        ensures { result ≡ cause_number self }
    {
        self as u8
    }
}

impl Layer {
    // Public; `Display` writes it.
    pub fn word(self) -> &'static str
        ensures { result.now ≡ layer_word self }
    {
        match self {
            Layer::Bits => "bits",
            Layer::Record => "record",
            Layer::Plan => "plan",
        }
    }
}

impl fmt::Display for Layer {
    ghost output = { λ l. Some (layer_word l) };

    fn fmt<W: fmt::Write>(&self, f: &mut fmt::Formatter<W>) -> fmt::Result {
        f.write_str(self.word())
    }
}

impl PlanFault {
    pub fn cause(self) -> Cause
        ensures { result ≡ (plan_told self).cause }
    {
        match self {
            PlanFault::TooLong => Cause::TooLong,
            PlanFault::Record(RecordFault::Bits(_)) => Cause::Short,
            PlanFault::Record(RecordFault::Field(flaw, _)) => flaw.into(),
            PlanFault::Trailing(_) => Cause::Trailing,
        }
    }

    pub fn layer(self) -> Layer
        ensures { result ≡ (plan_told self).layer }
    {
        match self {
            PlanFault::Record(RecordFault::Bits(_)) => Layer::Bits,
            PlanFault::Record(RecordFault::Field(_, _)) => Layer::Record,
            PlanFault::TooLong | PlanFault::Trailing(_) => Layer::Plan,
        }
    }

    // The byte where the field starts, and its record.
    pub fn spot(self) -> Spot
        ensures { result ≡ (plan_told self).at }
    {
        match self {
            PlanFault::TooLong => Spot {
                byte: LONGEST_PLAN,
                number: 0,
            },
            PlanFault::Trailing(at) => at,
            PlanFault::Record(RecordFault::Bits(fault)) => fault.at,
            PlanFault::Record(RecordFault::Field(_, at)) => at,
        }
    }
}

impl fmt::Display for PlanFault {
    ghost output = { λ f. Some (fault_line (plan_told f)) };

    fn fmt<W: fmt::Write>(&self, f: &mut fmt::Formatter<W>) -> fmt::Result {
        let cause = self.cause().number();
        let Spot { byte, number } = self.spot();
        let layer = self.layer();
        write!(f, "plan fault {cause} at {byte} record {number} in {layer}")
    }
}

impl error::Error for PlanFault {}
