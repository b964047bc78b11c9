// Fields at their limits, and headers of 1 to 8 cores.
use crate::helpers::*;
use std::test::Fail;

// The byte where the B of each core starts.
const BOUND: [usize; 8] = [7, 8, 9, 10, 12, 13, 14, 15];

// Cores, the header's length, its filling bits, and the byte where these start.
const HEADERS: [(u32, usize, usize, usize); 8] = [
    (1, 9, 6, 8),
    (2, 10, 4, 9),
    (3, 11, 2, 10),
    (4, 12, 0, 12),
    (5, 14, 6, 13),
    (6, 15, 4, 14),
    (7, 16, 2, 15),
    (8, 17, 0, 17),
];

// Writes a header of so many cores, all at 1,000, and an end record at its end, over zeros.
fn write_header(plan: &mut [u8], cores: u32, length: usize) {
    put(plan, 0, 12, 0xCB5);
    put(plan, 12, 4, 1);
    put(plan, 16, 4, cores);
    for k in 0..cores.min(8) {
        put(plan, 56 + 10 * k as usize, 10, 1000);
    }
    put(plan, 8 * length.min(20), 4, 6);
}

fn header_of(cores: u32, length: usize) -> [u8; 32] {
    let mut plan = [0; 32];
    write_header(&mut plan, cores, length);
    plan
}

#[test]
fn headers_of_one_to_eight_cores(rt: HostRuntime) -> Result<(), Fail> {
    for (cores, length, filling, at) in HEADERS {
        let plan = header_of(cores, length);
        assert!(rt; length <= 20);
        assert!(rt; filling <= 6);
        expect(&rt, rt.alloc(), &plan[..length + 8], None)?;
        expect(&rt, rt.alloc(), &plan[..length], Some(bits(length, 1)))?;
        for i in 0..filling {
            let mut odd = plan;
            flip(&mut odd, 8 * length - 1 - i);
            expect(&rt, rt.alloc(), &odd[..length + 8], Some(record(34, at, 0)))?;
        }
    }
    Ok(())
}

// A header of eight cores, of which one bound is not 1,000 but this.
fn with_bound(at: usize, bound: u32) -> [u8; 25] {
    let mut plan = [0; 25];
    write_header(&mut plan, 8, 17);
    put(&mut plan, at, 10, 1000 ^ bound);
    plan
}

#[test]
fn bounds_at_their_limits(rt: HostRuntime) -> Result<(), Fail> {
    for (core, byte) in BOUND.iter().enumerate() {
        for (bound, right) in [
            (0, false),
            (1, true),
            (999, true),
            (1000, true),
            (1001, false),
            (1023, false),
        ] {
            let plan = with_bound(56 + 10 * core, bound);
            let want = (!right).then_some(record(36, *byte, 0));
            expect(&rt, rt.alloc(), &plan, want)?;
        }
    }
    Ok(())
}

// Of the sample: bit, width, value, and the cause and the byte that are told.
const FIELDS: [(usize, usize, u32, Option<(u8, usize)>); 24] = [
    (0, 12, 0, Some((32, 0))),
    (0, 12, 0xCB4, Some((32, 0))),
    (12, 4, 0, Some((33, 1))),
    (12, 4, 2, Some((33, 1))),
    (16, 4, 0, Some((36, 2))),
    (16, 4, 9, Some((36, 2))),
    (16, 4, 15, Some((36, 2))),
    (20, 1, 1, None),
    (21, 2, 1, None),
    (21, 2, 2, None),
    (21, 2, 3, Some((36, 2))),
    (23, 1, 1, Some((34, 2))),
    (24, 32, 1, None),
    (24, 32, 4_000_000_000, None),
    (24, 32, 4_000_000_001, Some((36, 3))),
    (24, 32, 0xFFFF_FFFF, Some((36, 3))),
    (56, 10, 0, Some((36, 7))),
    (56, 10, 1, None),
    (56, 10, 1001, Some((36, 7))),
    (66, 10, 0, Some((36, 8))),
    (66, 10, 1, None),
    (66, 10, 1001, Some((36, 8))),
    (76, 4, 0, None),
    (76, 4, 15, Some((34, 9))),
];

// Writes a field over whatever stands there.
fn rewrite(plan: &mut [u8], at: usize, width: usize, value: u32) {
    for i in at..at.saturating_add(width) {
        if get(plan, i) {
            flip(plan, i);
        }
    }
    put(plan, at, width, value);
}

fn get(plan: &[u8], i: usize) -> bool {
    plan.get(i / 8)
        .is_some_and(|byte| (*byte >> (7 - i % 8)) % 2 == 1)
}

#[test]
fn header_fields_at_their_limits(rt: HostRuntime) -> Result<(), Fail> {
    for (at, width, value, fault) in FIELDS {
        let mut plan = sample();
        rewrite(&mut plan, at, width, value);
        let want = fault.map(|(cause, byte)| record(cause, byte, 0));
        expect(&rt, rt.alloc(), &plan, want)?;
    }
    Ok(())
}

// Bits that each make a field of the sample's header wrong, with what is told.
const WRONG: [(usize, u8, usize); 7] = [
    (0, 32, 0),
    (15, 33, 1),
    (16, 36, 2),
    (23, 34, 2),
    (61, 36, 7),
    (71, 36, 8),
    (79, 34, 9),
];

fn flip_from(plan: &mut [u8], first: usize) {
    for (i, _, _) in WRONG {
        if i >= first {
            flip(plan, i);
        }
    }
}

// A header with many faults tells the one that comes first.
#[test]
fn the_first_field_is_told(rt: HostRuntime) -> Result<(), Fail> {
    for (first, cause, byte) in WRONG {
        let mut plan = sample();
        flip_from(&mut plan, first);
        expect(&rt, rt.alloc(), &plan, Some(record(cause, byte, 0)))?;
    }
    Ok(())
}

#[test]
fn every_kind_in_every_record(rt: HostRuntime) -> Result<(), Fail> {
    for event in 0..9 {
        for kind in [0, 7, 8, 9, 10, 11, 12, 13, 14, 15] {
            let mut plan = sample();
            rewrite(&mut plan, 80 + 64 * event, 4, kind);
            expect(
                &rt,
                rt.alloc(),
                &plan,
                Some(record(35, 10 + 8 * event, event + 1)),
            )?;
        }
    }
    Ok(())
}
