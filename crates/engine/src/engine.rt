// The engine over any measure and any policy. What asks for neither is done by its figures, so that it is proved once for all of them.
use crate::inner::Inner;

#[derive(Drop)]
pub struct Engine<M, P> {
    measure: M,
    policy: P,
    inner: Inner,
}

mod calls;
mod questions;
