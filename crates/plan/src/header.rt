// The header: marks, setup, start, a bound for each core, and filling.
ghost use Rattle.std.specs.Prelude.{◌≡◌, ◌-◌, ◌*◌, ◌<◌, ◌≤◌, ◌&&◌, min, cond, Some, None, length, take, IfOk, OnOk, nat_le};
ghost use Rattle.std.specs.Option.{ok_or};
ghost use Rattle.fault.specs.Faults.{told, shown, record_told};
ghost use Rattle.plan.specs.Headers.{marks_of, measure_of, policy_of, setup_of, start_of, bound_bit, bound_of, bounds_of, header_length, filling_of, header_of};

use crate::field::{Field, Input};
use crate::unnamed::Unnamed;
use fault::{Flaw, RecordFault};
use std::marker::Model;

#[derive(Clone, Copy, PartialEq, Eq, Debug)]
pub enum MeasureKind {
    Rounded,
    Catalogue,
}

#[derive(Clone, Copy, PartialEq, Eq, Debug)]
pub enum PolicyKind {
    First,
    Worst,
    Best,
}

impl From<bool> for MeasureKind {
    ghost from_gives = { λ b r. r ≡ measure_of (cond b 1 0) };

    fn from(bit: bool) -> MeasureKind {
        if bit {
            MeasureKind::Catalogue
        } else {
            MeasureKind::Rounded
        }
    }
}

impl TryFrom<u32> for PolicyKind {
    type Error = Unnamed;

    ghost try_from_gives = { λ n r. r ≡ ok_or (policy_of n) (record { 0 = n }) };

    fn try_from(n: u32) -> Result<PolicyKind, Unnamed> {
        match n {
            0 => Ok(PolicyKind::First),
            1 => Ok(PolicyKind::Worst),
            2 => Ok(PolicyKind::Best),
            _ => Err(Unnamed(n)),
        }
    }
}

// The bounds of the first `cores` places are the cores' own; the other places hold 0. A header is Copy, which a list of the bounds would not be.
#[derive(Clone, Copy, Debug)]
pub struct Header {
    pub cores: u8,
    pub measure: MeasureKind,
    pub policy: PolicyKind,
    pub start: u32,
    pub bounds: [u16; 8],
}

impl Header {
    // The bounds of the cores alone, in core order.
    pub fn core_bounds(&self) -> &[u16]
        ensures { result.now ≡ take (min self.now.cores 8) self.now.bounds }
    {
        let count = (self.cores as usize).min(8);
        &self.bounds[0..count]
    }
}

// The fields of a header before its bounds.
const MARK: Field = Field { at: 0, width: 12 };

const EDITION: Field = Field { at: 12, width: 4 };

const CORES: Field = Field { at: 16, width: 4 };

const MEASURE: Field = Field { at: 20, width: 1 };

const POLICY: Field = Field { at: 21, width: 2 };

const SPARE: Field = Field { at: 23, width: 1 };

const START: Field = Field { at: 24, width: 32 };

const PLAN_MARK: u32 = 0xCB5;

const PLAN_EDITION: u32 = 1;

// The engine's last tick, which the reader of plans does not know.
const LATEST_START: u32 = 4_000_000_000;

// The bit where the bound of core k starts; after those of all k cores the filling starts.
fn bound_bit(k: usize) -> usize
    requires { k ≤ 8 }
    ensures { result ≡ bound_bit k }
{
    56 + 10 * k
}

// How many cores a plan has: 1 to 8.
#[derive(Clone, Copy)]
struct Cores(u8);

impl Model for Cores {
    ghost use Rattle.std.specs.Prelude.{ℕ, ◌≤◌};

    ghost Value = { ℕ };

    ghost view = { λ c. c.0 };

    ghost invariant = { λ c. (1 ≤ c.0) × (c.0 ≤ 8) };

    ghost inverse = { λ n. record { 0 = n } };
}

impl Cores {
    fn new(n: u32) -> Option<Cores>
        ensures { result ≡ cond (nat_le 1 n && nat_le n 8) (Some n) None }
    {
        if n < 1 || n > 8 {
            None
        } else {
            Some(Cores(n as u8))
        }
    }

    fn count(self) -> u8
        ensures value { result ≡ self }
        ensures few { result ≤ 8 }
    {
        self.0
    }

    // How many bytes the header has.
    fn header_length(self) -> usize
        ensures { result ≡ header_length self }
    {
        (bound_bit(self.0 as usize) + 7) / 8
    }

    // The bits from the last bound to the byte's end.
    fn filling(self) -> Field
        ensures at { result.at ≡ bound_bit self }
        ensures width { result.width ≡ 8 * header_length self - bound_bit self }
    {
        let at = bound_bit(self.0 as usize);
        Field {
            at,
            width: 8 * self.header_length() - at,
        }
    }
}

struct Setup {
    cores: Cores,
    measure: MeasureKind,
    policy: PolicyKind,
}

fn read_marks(bytes: &[u8]) -> Result<(), RecordFault>
    ensures { told record_told result ≡ marks_of bytes.now }
{
    let input = Input::first(bytes);
    let mark = input.read(MARK)?;
    input.check(mark == PLAN_MARK, Flaw::Mark, MARK)?;
    let edition = input.read(EDITION)?;
    input.check(edition == PLAN_EDITION, Flaw::Edition, EDITION)
}

fn read_setup(bytes: &[u8]) -> Result<Setup, RecordFault>
    ensures { told record_told result ≡ setup_of bytes.now }
{
    let input = Input::first(bytes);
    let cores = Cores::new(input.read(CORES)?).ok_or(input.flawed(Flaw::Range, CORES))?;
    let measure = MeasureKind::from(input.read(MEASURE)? != 0);
    let unknown = input.flawed(Flaw::Range, POLICY);
    let policy = PolicyKind::try_from(input.read(POLICY)?).map_err(|_| unknown)?;
    let spare = input.read(SPARE)?;
    input.check(spare == 0, Flaw::Spare, SPARE)?;
    Ok(Setup {
        cores,
        measure,
        policy,
    })
}

fn read_start(bytes: &[u8]) -> Result<u32, RecordFault>
    ensures { told record_told result ≡ start_of bytes.now }
{
    let input = Input::first(bytes);
    let start = input.read(START)?;
    input.check(start <= LATEST_START, Flaw::Range, START)?;
    Ok(start)
}

fn read_bound(bytes: &[u8], core: usize) -> Result<u16, RecordFault>
    requires { core < 8 }
    ensures { told record_told result ≡ bound_of bytes.now core }
{
    let input = Input::first(bytes);
    let field = Field {
        at: bound_bit(core),
        width: 10,
    };
    let bound = input.read(field)?;
    input.check(1 <= bound && bound <= 1000, Flaw::Range, field)?;
    Ok(bound as u16)
}

fn read_bounds(bytes: &[u8], cores: Cores) -> Result<[u16; 8], RecordFault>
    ensures { told record_told result ≡ bounds_of bytes.now cores }
{
    let mut bounds = [0; 8];
    for (core, bound) in bounds[..cores.count() as usize].iter_mut().enumerate() {
        *bound = read_bound(bytes, core)?;
    }
    Ok(bounds)
}

#[tactic(auto, using(crate::proofs::Fields::field_fits))]
fn read_filling(bytes: &[u8], cores: Cores) -> Result<(), RecordFault>
    ensures answer { told record_told result ≡ filling_of bytes.now cores }
    ensures room { OnOk result (header_length cores ≤ length bytes.now) }
{
    let input = Input::first(bytes);
    let filling = input.read(cores.filling())?;
    input.check(filling == 0, Flaw::Spare, cores.filling())
}

// The header's fields in their order, and how many bytes they have.
pub(crate) fn read_fields(bytes: &[u8]) -> Result<(Header, usize), RecordFault>
    ensures answer { shown (λ p. p.0) (told record_told result) ≡ header_of bytes.now }
    ensures room { IfOk result (λ p. (p.1 ≡ header_length p.0.cores) × (p.1 ≤ length bytes.now)) }
{
    read_marks(bytes)?;
    let Setup {
        cores,
        measure,
        policy,
    } = read_setup(bytes)?;
    let start = read_start(bytes)?;
    let bounds = read_bounds(bytes, cores)?;
    read_filling(bytes, cores)?;
    let header = Header {
        cores: cores.count(),
        measure,
        policy,
        start,
        bounds,
    };
    Ok((header, cores.header_length()))
}
