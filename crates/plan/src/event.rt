// An event's record: eight bytes with a kind and three figures.
ghost use Rattle.std.specs.Prelude.{◌≡◌, ◌<◌, true, length, drop, Some, IfOk, Ok, Err, MatchOption};
ghost use Rattle.std.specs.Option.{ok_or};
ghost use Rattle.fault.specs.Faults.{told, shown, record_told, wrong};
ghost use Rattle.plan.specs.Bits.{spot_of, given, named};
ghost use Rattle.plan.specs.Records.{kind_of, kind_word, lacks_a, lacks_b, proper, Unpacked, front_of, event_of, row_of, row_with};
ghost use Rattle.plan.specs.Plans.{is_end};

use crate::field::{Field, Input};
use crate::unnamed::Unnamed;
use fault::{BitFault, Flaw, RecordFault};
use std::fmt;

#[derive(Clone, Copy, PartialEq, Eq, Debug)]
pub enum Kind {
    Admit,
    Wake,
    Rest,
    Leave,
    Move,
    End,
}

impl Kind {
    // Public; `Display` writes it.
    pub fn word(self) -> &'static str
        ensures { result.now ≡ kind_word self }
    {
        match self {
            Kind::Admit => "admit",
            Kind::Wake => "wake",
            Kind::Rest => "rest",
            Kind::Leave => "leave",
            Kind::Move => "move",
            Kind::End => "end",
        }
    }

    pub(crate) fn is_end(self) -> bool
        ensures { result ≡ is_end self }
    {
        matches!(self, Kind::End)
    }

    fn lacks_a(self) -> bool
        ensures { result ≡ lacks_a self }
    {
        self.is_end()
    }

    fn lacks_b(self) -> bool
        ensures { result ≡ lacks_b self }
    {
        matches!(self, Kind::Wake | Kind::Rest | Kind::Leave | Kind::End)
    }
}

impl fmt::Display for Kind {
    ghost output = { λ k. Some (kind_word k) };

    fn fmt<W: fmt::Write>(&self, f: &mut fmt::Formatter<W>) -> fmt::Result {
        f.write_str(self.word())
    }
}

impl TryFrom<u32> for Kind {
    type Error = Unnamed;

    ghost try_from_gives = { λ n r. r ≡ ok_or (kind_of n) (record { 0 = n }) };

    fn try_from(n: u32) -> Result<Kind, Unnamed> {
        match n {
            1 => Ok(Kind::Admit),
            2 => Ok(Kind::Wake),
            3 => Ok(Kind::Rest),
            4 => Ok(Kind::Leave),
            5 => Ok(Kind::Move),
            6 => Ok(Kind::End),
            _ => Err(Unnamed(n)),
        }
    }
}

// The eight bytes that an event came from, and the place of the first in the plan.
#[derive(Clone, Copy)]
pub struct Source<'a> {
    pub bytes: &'a [u8; 8],
    pub place: usize,
}

#[derive(Clone, Copy)]
pub enum Event<'a> {
    Admit {
        gap: u32,
        budget: u32,
        period: u32,
        source: Source<'a>,
    },
    Wake {
        gap: u32,
        number: u32,
        source: Source<'a>,
    },
    Rest {
        gap: u32,
        number: u32,
        source: Source<'a>,
    },
    Leave {
        gap: u32,
        number: u32,
        source: Source<'a>,
    },
    Move {
        gap: u32,
        number: u32,
        core: u32,
        source: Source<'a>,
    },
    End {
        gap: u32,
        source: Source<'a>,
    },
}

impl Event<'_> {
    pub fn kind(self) -> Kind
        ensures { result ≡ (row_of self.entry).kind }
    {
        match self {
            Event::Admit { .. } => Kind::Admit,
            Event::Wake { .. } => Kind::Wake,
            Event::Rest { .. } => Kind::Rest,
            Event::Leave { .. } => Kind::Leave,
            Event::Move { .. } => Kind::Move,
            Event::End { .. } => Kind::End,
        }
    }

    pub fn gap(self) -> u32
        ensures { result ≡ (row_of self.entry).gap }
    {
        match self {
            Event::Admit { gap, .. }
            | Event::Wake { gap, .. }
            | Event::Rest { gap, .. }
            | Event::Leave { gap, .. }
            | Event::Move { gap, .. }
            | Event::End { gap, .. } => gap,
        }
    }
}

impl<'a> Event<'a> {
    // The bytes that the event came from, and their place.
    pub fn source(self) -> Source<'a>
        ensures { (result.bytes.now ≡ (row_of self.entry).bytes) × (result.place ≡ (row_of self.entry).place) }
    {
        match self {
            Event::Admit { source, .. }
            | Event::Wake { source, .. }
            | Event::Rest { source, .. }
            | Event::Leave { source, .. }
            | Event::Move { source, .. }
            | Event::End { source, .. } => source,
        }
    }
}

// The fields of a record.
const KIND: Field = Field { at: 0, width: 4 };

const GAP: Field = Field { at: 4, width: 20 };

const A: Field = Field { at: 24, width: 20 };

const B: Field = Field { at: 44, width: 20 };

// A record's four figures.
#[derive(Clone, Copy)]
struct Figures {
    kind: u32,
    gap: u32,
    a: u32,
    b: u32,
}

// What comes before B.
#[derive(Clone, Copy)]
struct Front {
    kind: Kind,
    gap: u32,
    a: u32,
}

// The figures of the first eight bytes, and the bytes after them.
fn unpack(bytes: &[u8]) -> Option<(Figures, &[u8])>
    ensures { MatchOption result (length bytes.now < 8) (λ p. Unpacked bytes.now p.0 p.1.now) }
{
    let [b0, b1, b2, b3, b4, b5, b6, b7, rest @ ..] = bytes else {
        return None;
    };
    let figures = Figures {
        kind: *b0 as u32 / 16,
        gap: (*b0 as u32 % 16) * 65_536 + *b1 as u32 * 256 + *b2 as u32,
        a: *b3 as u32 * 4096 + *b4 as u32 * 16 + *b5 as u32 / 16,
        b: (*b5 as u32 % 16) * 65_536 + *b6 as u32 * 256 + *b7 as u32,
    };
    Some((figures, rest))
}

// The kind that the record's first field names.
fn name_kind(input: Input, n: u32) -> Result<Kind, RecordFault>
    ensures { told record_told result ≡ named (kind_of n) (wrong Flaw.Kind (spot_of input.entry.start 0)) }
{
    let unknown = input.flawed(Flaw::Kind, KIND);
    Kind::try_from(n).map_err(|_| unknown)
}

// A figure that the kind lacks has to be zero.
fn check_figure(input: Input, field: Field, n: u32, lacks: bool) -> Result<(), RecordFault>
    ensures { told record_told result ≡ given (proper lacks n) (wrong Flaw.Range (spot_of input.entry.start field.at)) (Ok tt) }
{
    input.check(!lacks || n == 0, Flaw::Range, field)
}

// Kind, gap and A of a record that may be cut short; of a whole one `unpack` gives them.
fn read_front(input: Input) -> Result<Front, RecordFault>
    ensures { told record_told result ≡ front_of input.entry.bytes.now input.entry.start }
{
    let kind = name_kind(input, input.read(KIND)?)?;
    let gap = input.read(GAP)?;
    let a = input.read(A)?;
    check_figure(input, A, a, kind.lacks_a())?;
    Ok(Front { kind, gap, a })
}

// The fault of a record that is cut short.
#[tactic(auto, using(crate::proofs::Fields::field_cut))]
fn cut(input: Input) -> RecordFault
    requires { length input.bytes.now < 8 }
    ensures { Err (record_told result) ≡ event_of input.entry.bytes.now input.entry.start }
{
    let at = input.spot(B.at);
    read_front(input)
        .err()
        .unwrap_or(RecordFault::Bits(BitFault { at }))
}

fn event_of<'a>(kind: Kind, figures: Figures, source: Source<'a>) -> Event<'a>
    requires a { proper (lacks_a kind) figures.a ≡ true }
    requires b { proper (lacks_b kind) figures.b ≡ true }
    ensures { row_of result ≡ row_with kind figures source.entry.bytes.now source.entry.place }
{
    let Figures { kind: _, gap, a, b } = figures;
    match kind {
        Kind::Admit => Event::Admit {
            gap,
            budget: a,
            period: b,
            source,
        },
        Kind::Wake => Event::Wake {
            gap,
            number: a,
            source,
        },
        Kind::Rest => Event::Rest {
            gap,
            number: a,
            source,
        },
        Kind::Leave => Event::Leave {
            gap,
            number: a,
            source,
        },
        Kind::Move => Event::Move {
            gap,
            number: a,
            core: b,
            source,
        },
        Kind::End => Event::End { gap, source },
    }
}

// The event at the front of the input, and the bytes after it.
pub(crate) fn read_event<'a>(input: Input<'a>) -> Result<(Event<'a>, &'a [u8]), RecordFault>
    ensures answer { shown (λ p. row_of p.0) (told record_told result) ≡ event_of input.entry.bytes.now input.entry.start }
    ensures rest { IfOk result (λ p. p.1.now ≡ drop 8 input.entry.bytes.now) }
{
    let (Some((figures, rest)), Some(eight)) = (unpack(input.bytes), input.bytes.first_chunk::<8>())
    else {
        return Err(cut(input));
    };
    let kind = name_kind(input, figures.kind)?;
    check_figure(input, A, figures.a, kind.lacks_a())?;
    check_figure(input, B, figures.b, kind.lacks_b())?;
    let source = Source {
        bytes: eight,
        place: input.start.byte,
    };
    Ok((event_of(kind, figures, source), rest))
}
