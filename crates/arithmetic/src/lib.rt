//! Arithmetics: what a value is, what the operators do to values, and the number that a value shows.
#![tactic(auto)]

ghost use Rattle.std.specs.Prelude.{◌≡◌, ℤ};
ghost use Rattle.arithmetic.specs.Meaning.{Meaning, two, inverse, ConstantsShowThemselves, ReadingsShowThemselves, LimitsToTheNearest};

pub mod operators;
pub mod plain;
#[cfg(test)]
mod tests;
pub mod traced;
pub mod tracing;

use operators::{Combining, Operator};

/// An arithmetic: its own type of value, and one fixed function for each thing that is done with values.
pub trait Arithmetic {
    type Value: Copy;

    // the six functions, for this arithmetic
    ghost meaning: { Self → Meaning Self.Value };

    /// The value of a constant.
    fn constant(&self, number: i32) -> Self::Value
        ensures { result ≡ (meaning self.now).constant number };

    /// The value of a reading, for an input variable by its number.
    fn reading(&self, input: u8, number: i32) -> Self::Value
        ensures { result ≡ (meaning self.now).reading input number };

    /// An operator on two values.
    fn binary(&self, operator: Operator, first: Self::Value, second: Self::Value) -> Self::Value
        ensures { result ≡ (meaning self.now).operated (two operator first second) };

    /// The operator `not` on one value.
    fn inverted(&self, value: Self::Value) -> Self::Value
        ensures { result ≡ (meaning self.now).operated (inverse value) };

    /// The number that a value shows.
    fn shows(&self, value: Self::Value) -> i32
        ensures { result ≡ (meaning self.now).shows value };

    // Two numbers and no struct of limits in order, since any two may be given.
    /// A value limited to the numbers from low to high.
    fn limited(&self, low: i32, high: i32, value: Self::Value) -> Self::Value
        ensures { result ≡ (meaning self.now).limited low high value };

    /// Two copies combined, the first arm's copy first.
    fn combined(&self, operator: Combining, first: Self::Value, second: Self::Value) -> Self::Value
        ensures { result ≡ (meaning self.now).combined operator first second };

    ghost constants: { (a : Self) → ConstantsShowThemselves (meaning a) };

    ghost readings: { (a : Self) → ReadingsShowThemselves (meaning a) };

    ghost limits: { (a : Self) → LimitsToTheNearest (meaning a) };
}
