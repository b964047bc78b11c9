// The sample plan, and what is told of a plan's bytes.
use fault::{Layer, PlanFault, Spot};
use plan::{PlanError, read_plan};
use std::alloc::Global;
use std::process::Abort;
use std::test::Fail;

#[derive(Clone, Copy, PartialEq, Eq, Debug)]
pub struct Told {
    pub cause: u8,
    pub layer: Layer,
    pub byte: usize,
    pub number: usize,
}

// Two cores, both at 1,000.
pub const HEADER: [u8; 10] = [0xCB, 0x51, 0x20, 0, 0, 0, 0, 0xFA, 0x3E, 0x80];

// Admit 5 10 twice, wake 1, wake 2, leave 1 after a gap of 5, admit 2 4, wake 3, admit 5 10 after a gap of 5, end.
pub const EVENTS: [[u8; 8]; 9] = [
    [0x10, 0, 0, 0, 0, 0x50, 0, 10],
    [0x10, 0, 0, 0, 0, 0x50, 0, 10],
    [0x20, 0, 0, 0, 0, 0x10, 0, 0],
    [0x20, 0, 0, 0, 0, 0x20, 0, 0],
    [0x40, 0, 5, 0, 0, 0x10, 0, 0],
    [0x10, 0, 0, 0, 0, 0x20, 0, 4],
    [0x20, 0, 0, 0, 0, 0x30, 0, 0],
    [0x10, 0, 5, 0, 0, 0x50, 0, 10],
    [0x60, 0, 0, 0, 0, 0, 0, 0],
];

pub const END: [u8; 8] = [0x60, 0, 0, 0, 0, 0, 0, 0];

// The sample: that header, then those events.
pub fn sample() -> [u8; 82] {
    let mut plan = [0; 82];
    plan[..10].copy_from_slice(&HEADER);
    plan[10..].copy_from_slice(EVENTS.as_flattened());
    plan
}

// One function for each layer, named for it; the causes are numbers, since these are tested.
pub fn bits(byte: usize, number: usize) -> Told {
    Told {
        cause: 31,
        layer: Layer::Bits,
        byte,
        number,
    }
}

pub fn record(cause: u8, byte: usize, number: usize) -> Told {
    Told {
        cause,
        layer: Layer::Record,
        byte,
        number,
    }
}

pub fn whole(cause: u8, byte: usize, number: usize) -> Told {
    Told {
        cause,
        layer: Layer::Plan,
        byte,
        number,
    }
}

impl From<PlanFault> for Told {
    fn from(fault: PlanFault) -> Told {
        let Spot { byte, number } = fault.spot();
        Told {
            cause: fault.cause().number(),
            layer: fault.layer(),
            byte,
            number,
        }
    }
}

// The plan has this fault, or none.
pub fn expect(rt: &impl Abort, heap: Global, bytes: &[u8], want: Option<Told>) -> Result<(), Fail> {
    let told = match read_plan(heap, bytes) {
        Ok(_) => None,
        Err(PlanError::Fault(fault)) => Some(Told::from(fault)),
        Err(PlanError::Memory) => return Err(Fail::new("no memory")),
    };
    assert_eq!(rt; told, want);
    Ok(())
}

// Flips bit i, counted from the most significant bit of the first byte.
pub fn flip(bytes: &mut [u8], i: usize) {
    if let Some(byte) = bytes.get_mut(i / 8) {
        *byte ^= 0x80 >> (i % 8);
    }
}

// Flips the bits that are set in a field of this value: over zero bits, this writes it.
pub fn put(bytes: &mut [u8], at: usize, width: usize, value: u32) {
    if at > 10_000 || width > 32 {
        return;
    }
    // A bit has no element to go over.
    for k in 0..width {
        if (value >> (width - 1 - k)) % 2 == 1 {
            flip(bytes, at + k);
        }
    }
}
