//! The values of the tracing arithmetic.

/// A number and the probes that it depends on: bit i for input variable i.
#[derive(Clone, Copy, PartialEq, Eq, Debug)]
pub struct Traced {
    pub number: i32,
    pub mask: u32,
}
