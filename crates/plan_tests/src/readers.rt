// Reading one event after another.
use crate::helpers::*;
use plan::{Kind, MeasureKind, PolicyKind, read_header};
use std::test::Fail;

// The kind and the gap of each event of the sample.
const ROWS: [(Kind, u32); 9] = [
    (Kind::Admit, 0),
    (Kind::Admit, 0),
    (Kind::Wake, 0),
    (Kind::Wake, 0),
    (Kind::Leave, 5),
    (Kind::Admit, 0),
    (Kind::Wake, 0),
    (Kind::Admit, 5),
    (Kind::End, 0),
];

#[test]
fn the_sample_event_by_event(rt: HostRuntime) -> Result<(), Fail> {
    let plan = sample();
    let (header, mut events) = read_header(&plan)?;
    assert_eq!(rt; header.cores, 2);
    assert_eq!(rt; header.measure, MeasureKind::Rounded);
    assert_eq!(rt; header.policy, PolicyKind::First);
    assert_eq!(rt; header.start, 0);
    assert!(rt; header.core_bounds() == [1000, 1000].as_slice());
    for (i, ((kind, gap), eight)) in ROWS.into_iter().zip(EVENTS).enumerate() {
        let event = events.next()?.ok_or("an event is missing")?;
        let source = event.source();
        assert_eq!(rt; event.kind(), kind);
        assert_eq!(rt; event.gap(), gap);
        assert_eq!(rt; source.place, 10 + 8 * i);
        assert_eq!(rt; *source.bytes, eight);
    }
    assert!(rt; events.next()?.is_none());
    assert!(rt; events.next()?.is_none());
    Ok(())
}

// A reader that met a fault tells it again.
#[test]
fn a_fault_twice(rt: HostRuntime) -> Result<(), Fail> {
    let plan = sample();
    let (_, mut events) = read_header(&plan[..20])?;
    assert!(rt; events.next()?.is_some());
    for _ in 0..2 {
        let told = events.next().err().map(Told::from);
        assert_eq!(rt; told, Some(bits(18, 2)));
    }
    Ok(())
}

#[test]
fn the_lines_of_faults(rt: HostRuntime) -> Result<(), Fail> {
    let plan = sample();
    let rows = [
        (0, "plan fault 31 at 0 record 0 in bits"),
        (2, "plan fault 31 at 2 record 0 in bits"),
    ];
    for (n, line) in rows {
        let fault = read_header(&plan[..n])
            .err()
            .ok_or("a cut header was read")?;
        assert!(rt; fault.to_string(rt.alloc())?.as_str() == line);
    }
    Ok(())
}
