// A plan that ends early or late.
use crate::helpers::*;
use std::test::Fail;

// The byte that is told where so many bytes of the sample's header are there.
const HEADER_CUT: [usize; 10] = [0, 0, 2, 3, 3, 3, 3, 7, 7, 8];

// The same within an event's record, from its start on.
const EVENT_CUT: [usize; 8] = [0, 0, 0, 3, 3, 3, 5, 5];

#[test]
fn cut_at_every_byte(rt: HostRuntime) -> Result<(), Fail> {
    let plan = sample();
    for (n, byte) in HEADER_CUT.iter().enumerate() {
        expect(&rt, rt.alloc(), &plan[..n], Some(bits(*byte, 0)))?;
    }
    for event in 0..9 {
        let start = 10 + 8 * event;
        for (n, byte) in EVENT_CUT.iter().enumerate() {
            expect(
                &rt,
                rt.alloc(),
                &plan[..start + n],
                Some(bits(start + *byte, event + 1)),
            )?;
        }
    }
    expect(&rt, rt.alloc(), &plan, None)
}

// A short record of no known kind is that first, and so is an end record with an A.
#[test]
fn cut_records_that_are_wrong(rt: HostRuntime) -> Result<(), Fail> {
    let mut plan = sample();
    plan[10] = 0x70;
    expect(&rt, rt.alloc(), &plan[..11], Some(record(35, 10, 1)))?;
    plan[10] = 0x60;
    expect(&rt, rt.alloc(), &plan[..15], Some(bits(13, 1)))?;
    expect(&rt, rt.alloc(), &plan[..16], Some(record(36, 13, 1)))
}

#[test]
fn longest_plans(rt: HostRuntime) -> Result<(), Fail> {
    let mut bytes = HEADER.to_vec(rt.alloc())?;
    for _ in 0..8_190 {
        bytes.extend_from_slice(&EVENTS[2])?;
    }
    bytes.extend_from_slice(&EVENTS[2][..6])?;
    assert_eq!(rt; bytes.len(), 65_536);
    expect(&rt, rt.alloc(), bytes.as_slice(), Some(bits(65_535, 8_191)))?;
    bytes.push(0)?;
    expect(
        &rt,
        rt.alloc(),
        bytes.as_slice(),
        Some(whole(30, 65_536, 0)),
    )
}

// The length comes before all else.
#[test]
fn too_long_and_no_plan(rt: HostRuntime) -> Result<(), Fail> {
    let mut bytes = vec![in rt.alloc(); 0; 65_536]?;
    expect(&rt, rt.alloc(), bytes.as_slice(), Some(record(32, 0, 0)))?;
    bytes.push(0)?;
    expect(
        &rt,
        rt.alloc(),
        bytes.as_slice(),
        Some(whole(30, 65_536, 0)),
    )
}

#[test]
fn bytes_after_the_end(rt: HostRuntime) -> Result<(), Fail> {
    let mut bytes = sample().to_vec(rt.alloc())?;
    bytes.push(0)?;
    expect(&rt, rt.alloc(), bytes.as_slice(), Some(whole(37, 82, 9)))?;
    bytes.extend_from_slice(&END)?;
    expect(&rt, rt.alloc(), bytes.as_slice(), Some(whole(37, 82, 9)))
}

#[test]
fn a_plan_of_one_end(rt: HostRuntime) -> Result<(), Fail> {
    let mut bytes = HEADER.to_vec(rt.alloc())?;
    bytes.extend_from_slice(&END)?;
    expect(&rt, rt.alloc(), bytes.as_slice(), None)?;
    bytes.extend_from_slice(&END)?;
    expect(&rt, rt.alloc(), bytes.as_slice(), Some(whole(37, 18, 1)))
}
