// The making of an engine at its limits.
use crate::prelude::*;
use std::process::Abort;

// Figures B, the start, and the number of the refusal, where there is one.
const MAKINGS: [(&[u32], u32, Option<u32>); 18] = [
    (&[], 0, Some(1)),
    (&[1000], 0, None),
    (&[1000; 8], 0, None),
    (&[1000; 9], 0, Some(1)),
    (&[0], 0, Some(2)),
    (&[1; 8], 0, None),
    (&[1001], 0, Some(2)),
    (&[1000, 1000, 1000, 1000, 1000, 1000, 1000, 0], 0, Some(2)),
    (&[1, 1, 1, 1, 1, 1, 1, 1001], 0, Some(2)),
    (&[1000], 4_000_000_000, None),
    (&[1000], 4_000_000_001, Some(3)),
    (&[1000; 8], 4_294_967_295, Some(3)),
    // Of several the first in order answers.
    (&[], 4_000_000_001, Some(1)),
    (&[1000; 9], 4_000_000_001, Some(1)),
    (&[0; 9], 0, Some(1)),
    (&[0; 9], 4_000_000_001, Some(1)),
    (&[0], 4_000_000_001, Some(2)),
    (&[1001; 8], 4_294_967_295, Some(2)),
];

// An engine just made is idle at its start.
fn makes(rt: &impl Abort, figures: &[u32], start: u32, refused: Option<u32>) {
    let made = Trial::new(Rounded, FirstFit, figures, start)
        .map(|trial| {
            let engine = trial.engine();
            (engine.clock(), engine.cores(), engine.live_count())
        })
        .map_err(Refusal::number);
    let expected = refused.map_or(Ok((start, figures.len(), 0)), Err);
    assert_eq!(rt; made, expected);
}

#[test]
fn makings_at_their_limits(rt: HostRuntime) {
    for (figures, start, refused) in MAKINGS {
        makes(&rt, figures, start, refused);
    }
}
