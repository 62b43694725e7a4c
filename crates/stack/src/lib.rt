//! A stack over places that are lent to it.
#![tactic(auto)]

ghost use Rattle.std.specs.Prelude.{◌≤◌, length};

pub mod cutting;
pub mod methods;
#[cfg(test)]
mod tests;

/// A stack on the places of a lent slice, the first pushed value in the first place.
#[derive(Drop)]
pub struct Stack<'a, T> {
    // Fixed memory: the places are the caller's, so how many of them are in use stands beside them.
    places: &'a mut [T],
    depth: usize,
    ghost fits: { depth ≤ length places.now },
}
