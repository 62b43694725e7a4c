//! The plain arithmetic: signed 32-bit numbers.
ghost use Rattle.std.specs.Prelude.{refl};
ghost use Rattle.arithmetic.specs.Plain.{plain};
ghost use Rattle.arithmetic.specs.Nearest.{clamped_nearest};

use crate::Arithmetic;
use crate::operators::{Combining, Operator};

/// Values are numbers; what would leave the range stops at its end.
#[derive(Clone, Copy)]
pub struct Plain {}

impl Arithmetic for Plain {
    type Value = i32;

    ghost meaning = { λ _. plain };

    ghost constants = { λ a n h. refl };

    ghost readings = { λ a i n h. refl };

    ghost limits = { λ a low high x h. clamped_nearest low high x h };

    fn constant(&self, number: i32) -> i32 {
        number
    }

    fn reading(&self, _input: u8, number: i32) -> i32 {
        number
    }

    fn binary(&self, operator: Operator, first: i32, second: i32) -> i32 {
        match operator {
            Operator::Add => first.saturating_add(second),
            Operator::Subtract => first.saturating_sub(second),
            Operator::Multiply => first.saturating_mul(second),
            Operator::Lesser => first.min(second),
            Operator::Greater => first.max(second),
            Operator::LessThan => i32::from(first < second),
            Operator::Equal => i32::from(first == second),
        }
    }

    fn inverted(&self, value: i32) -> i32 {
        i32::from(value == 0)
    }

    fn shows(&self, value: i32) -> i32 {
        value
    }

    fn limited(&self, low: i32, high: i32, value: i32) -> i32 {
        low.max(value.min(high))
    }

    fn combined(&self, operator: Combining, first: i32, second: i32) -> i32 {
        match operator {
            Combining::Sum => first.saturating_add(second),
            Combining::Least => first.min(second),
            Combining::Greatest => first.max(second),
            Combining::Left => first,
        }
    }
}
