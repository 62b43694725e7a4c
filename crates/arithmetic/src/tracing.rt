//! The tracing arithmetic: the plain number, and which probes it depends on.
ghost use Rattle.std.specs.Prelude.{◌≡◌, refl};
ghost use Rattle.arithmetic.specs.Tracing.{tracing, traced, probe_bit};
ghost use Rattle.arithmetic.specs.Nearest.{clamped_nearest};

use crate::Arithmetic;
use crate::operators::{Combining, Operator};
use crate::plain::Plain;
use crate::traced::Traced;

/// Values are plain numbers, each with the mask of the probes that it depends on.
#[derive(Clone, Copy)]
pub struct Tracing {}

/// The mask of one input variable: its own bit, and none for a number over 31.
pub fn probe_mask(input: u8) -> u32
    ensures { result ≡ probe_bit input }
{
    if input < 32 { 1 << input } else { 0 }
}

// A number with its mask.
fn with_mask(number: i32, mask: u32) -> Traced
    ensures { result ≡ traced number mask }
{
    Traced { number, mask }
}

impl Arithmetic for Tracing {
    type Value = Traced;

    ghost meaning = { λ _. tracing };

    ghost constants = { λ a n h. refl };

    ghost readings = { λ a i n h. refl };

    ghost limits = { λ a low high x h. clamped_nearest low high x.number h };

    fn constant(&self, number: i32) -> Traced {
        with_mask(number, 0)
    }

    fn reading(&self, input: u8, number: i32) -> Traced {
        with_mask(number, probe_mask(input))
    }

    fn binary(&self, operator: Operator, first: Traced, second: Traced) -> Traced {
        let number = Plain {}.binary(operator, first.number, second.number);
        with_mask(number, first.mask | second.mask)
    }

    fn inverted(&self, value: Traced) -> Traced {
        with_mask(Plain {}.inverted(value.number), value.mask)
    }

    fn shows(&self, value: Traced) -> i32 {
        value.number
    }

    fn limited(&self, low: i32, high: i32, value: Traced) -> Traced {
        let number = Plain {}.limited(low, high, value.number);
        with_mask(number, value.mask)
    }

    fn combined(&self, operator: Combining, first: Traced, second: Traced) -> Traced {
        let number = Plain {}.combined(operator, first.number, second.number);
        let mask = match operator {
            Combining::Left => first.mask,
            _ => first.mask | second.mask,
        };
        with_mask(number, mask)
    }
}
