// Every bit of the sample's header, and of a record of each kind, flipped.
use crate::helpers::*;
use std::process::Abort;
use std::test::Fail;

// From bit, to bit, and the cause, the byte and the record that are told.
const HEADER_FLIPS: [(usize, usize, Option<(u8, usize, usize)>); 22] = [
    (0, 11, Some((32, 0, 0))), // mark
    (12, 15, Some((33, 1, 0))), // edition
    (16, 16, Some((36, 2, 0))), // ten cores
    (17, 17, Some((36, 10, 0))), // six cores: the third has 4, the fourth 0
    (18, 18, Some((36, 2, 0))), // no cores
    (19, 19, Some((35, 11, 1))), // three cores: the third has 4, and events start at byte 11
    (20, 20, None), // catalogue
    (21, 22, None), // best fit, worst fit
    (23, 23, Some((34, 2, 0))), // spare
    (24, 55, None), // start, a power of two
    (56, 60, None), // 488, 744, 872, 936, 968 for core 0
    (61, 61, Some((36, 7, 0))), // 1,016
    (62, 62, None), // 992
    (63, 63, Some((36, 7, 0))), // 1,004
    (64, 64, Some((36, 7, 0))), // 1,002
    (65, 65, Some((36, 7, 0))), // 1,001
    (66, 70, None), // the same for core 1
    (71, 71, Some((36, 8, 0))),
    (72, 72, None),
    (73, 74, Some((36, 8, 0))),
    (75, 75, Some((36, 8, 0))),
    (76, 79, Some((34, 9, 0))), // filling
];

#[test]
fn every_bit_of_the_header(rt: HostRuntime) -> Result<(), Fail> {
    let good = sample();
    let mut next = 0;
    for (from, to, fault) in HEADER_FLIPS {
        assert_eq!(rt; from, next);
        let want = fault.map(|(cause, byte, number)| record(cause, byte, number));
        for i in from..=to {
            let mut plan = good;
            flip(&mut plan, i);
            expect(&rt, rt.alloc(), &plan, want)?;
        }
        next = to.saturating_add(1);
    }
    assert_eq!(rt; next, 80);
    Ok(())
}

// A record of a kind, and what is told of it where a bit of its kind is flipped, one of A, or one of B: a cause and a byte, or nothing.
struct Flips {
    eight: [u8; 8],
    kinds: [Option<(u8, usize)>; 4],
    a: Option<(u8, usize)>,
    b: Option<(u8, usize)>,
}

// Admit 5 10 becomes kind 9, a move, a rest and kind 0.
const ADMIT: Flips = Flips {
    eight: [0x10, 0, 5, 0, 0, 0x50, 0, 10],
    kinds: [Some((35, 10)), None, Some((36, 15)), Some((35, 10))],
    a: None,
    b: None,
};

// Wake 3 becomes kind 10, an end, kind 0 and a rest.
const WAKE: Flips = Flips {
    eight: [0x20, 0, 5, 0, 0, 0x30, 0, 0],
    kinds: [Some((35, 10)), Some((36, 13)), Some((35, 10)), None],
    a: None,
    b: Some((36, 15)),
};

// Rest 3 becomes kind 11, kind 7, an admit and a wake.
const REST: Flips = Flips {
    eight: [0x30, 0, 5, 0, 0, 0x30, 0, 0],
    kinds: [Some((35, 10)), Some((35, 10)), None, None],
    a: None,
    b: Some((36, 15)),
};

// Leave 3 becomes kind 12, kind 0, an end and a move.
const LEAVE: Flips = Flips {
    eight: [0x40, 0, 5, 0, 0, 0x30, 0, 0],
    kinds: [Some((35, 10)), Some((35, 10)), Some((36, 13)), None],
    a: None,
    b: Some((36, 15)),
};

// Move 3 1 becomes kind 13, an admit, kind 7 and a leave.
const MOVE: Flips = Flips {
    eight: [0x50, 0, 5, 0, 0, 0x30, 0, 1],
    kinds: [Some((35, 10)), None, Some((35, 10)), Some((36, 15))],
    a: None,
    b: None,
};

// The sample's header, then the record, then an end record.
fn with_record(eight: [u8; 8]) -> [u8; 26] {
    let mut plan = [0; 26];
    plan[..10].copy_from_slice(&HEADER);
    plan[10..18].copy_from_slice(&eight);
    plan[18..].copy_from_slice(&END);
    plan
}

fn check_flips(rt: &(impl Abort + AllocGlobal), flips: &Flips) -> Result<(), Fail> {
    let good = with_record(flips.eight);
    expect(rt, rt.alloc(), &good, None)?;
    for i in 0..64 {
        let mut plan = good;
        flip(&mut plan, 80 + i);
        let fault = match i {
            0..=3 => flips.kinds[i],
            4..=23 => None,
            24..=43 => flips.a,
            _ => flips.b,
        };
        let want = fault.map(|(cause, byte)| record(cause, byte, 1));
        expect(rt, rt.alloc(), &plan, want)?;
    }
    Ok(())
}

#[test]
fn every_bit_of_a_record_of_each_kind(rt: HostRuntime) -> Result<(), Fail> {
    check_flips(&rt, &ADMIT)?;
    check_flips(&rt, &WAKE)?;
    check_flips(&rt, &REST)?;
    check_flips(&rt, &LEAVE)?;
    check_flips(&rt, &MOVE)
}

// An end record becomes kind 14, a wake of 0, a leave of 0 and kind 7: after a wake or a leave another record is wanted.
fn end_flipped(i: usize) -> Option<Told> {
    match i {
        0 | 3 => Some(record(35, 10, 1)),
        1 | 2 => Some(bits(18, 2)),
        4..=23 => None,
        24..=43 => Some(record(36, 13, 1)),
        _ => Some(record(36, 15, 1)),
    }
}

#[test]
fn every_bit_of_an_end_record(rt: HostRuntime) -> Result<(), Fail> {
    let good = with_record(END);
    expect(&rt, rt.alloc(), &good[..18], None)?;
    for i in 0..64 {
        let mut plan = good;
        flip(&mut plan, 80 + i);
        expect(&rt, rt.alloc(), &plan[..18], end_flipped(i))?;
    }
    Ok(())
}
