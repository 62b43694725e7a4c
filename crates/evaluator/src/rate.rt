//! The rate that a formula gives for the readings of probes.
ghost use Rattle.std.specs.Prelude.{◌≡◌, ℕ, ◌*◌, ◌^◌, ◌<◌, ◌≤◌, false, List, length, ℤ, IfOk, Ok};
ghost use Rattle.std.specs.List.{slice_get};
ghost use Rattle.std.specs.Mem.{type_size};
ghost use Rattle.arithmetic.specs.Plain.{plain};
ghost use Rattle.arithmetic.specs.Tracing.{tracing};
ghost use Rattle.evaluator.specs.Promises.{DifferOnlyAt, has_probe};
ghost use Rattle.evaluator.specs.Outcomes.{mapped};
ghost use Rattle.evaluator.specs.Rates.{rate_of, reading_of, Within, shown_number};

use crate::evaluation::{ALL_PLACES, evaluate};
use crate::limits::Limits;
use crate::refusal::Refusal;
use crate::scope::FirstPlaces;
use arithmetic::Arithmetic;
use arithmetic::plain::Plain;
use arithmetic::traced::Traced;
use arithmetic::tracing::Tracing;

/// The most variables of a program, and so the most readings.
pub const MOST_VARIABLES: usize = 32;

/// A rate's formula: an expression, and the limits that its value is held to.
#[derive(Clone, Copy)]
pub struct Formula<'a> {
    pub limits: Limits,
    pub code: &'a [u8],
}

impl Formula<'_> {
    // The rate in any arithmetic whose values are small enough for an array of all places.
    fn rate<A: Arithmetic>(self, arithmetic: &A, readings: &[i32]) -> Result<A::Value, Refusal>
        requires { 1040 * type_size A.Value.row < 2 ^ 63 }
        ensures answer { result ≡ rate_of (A.Arithmetic.meaning arithmetic.now) self.entry.limits.low self.entry.limits.high self.entry.code.now readings.now }
        ensures within { IfOk result (Within (A.Arithmetic.meaning arithmetic.now) self.entry.limits.low self.entry.limits.high) }
    {
        if readings.len() > MOST_VARIABLES {
            return Err(Refusal::Readings);
        }
        let mut memory = [arithmetic.constant(0); ALL_PLACES];
        place_readings(arithmetic, readings, &mut memory);
        let scope = FirstPlaces {
            count: readings.len(),
        };
        let value = evaluate(arithmetic, &scope, self.code, &mut memory)?;
        Ok(arithmetic.limited(self.limits.low(), self.limits.high(), value))
    }

    /// The rate in plain numbers: the value of the expression in which variable k has the k-th reading, limited.
    pub fn plain_rate(self, readings: &[i32]) -> Result<i32, Refusal>
        ensures answer { result ≡ rate_of plain self.entry.limits.low self.entry.limits.high self.entry.code.now readings.now }
        ensures within { IfOk result (Within plain self.entry.limits.low self.entry.limits.high) }
    {
        self.rate(&Plain {}, readings)
    }

    /// The same rate with the probes that it rests on. It shows the plain number; and a probe whose bit is not in the mask did not enter.
    pub fn traced_rate(self, readings: &[i32]) -> Result<Traced, Refusal>
        ensures answer { result ≡ rate_of tracing self.entry.limits.low self.entry.limits.high self.entry.code.now readings.now }
        ensures within { IfOk result (Within tracing self.entry.limits.low self.entry.limits.high) }
        ensures number { mapped shown_number result ≡ rate_of plain self.entry.limits.low self.entry.limits.high self.entry.code.now readings.now }
        ensures probes { (i : ℕ) (others : List ℤ) → DifferOnlyAt i readings.now others → (x : Traced) → result ≡ Ok x → has_probe i x.mask ≡ false → rate_of tracing self.entry.limits.low self.entry.limits.high self.entry.code.now others ≡ Ok x }
    {
        self.rate(&Tracing {}, readings)
    }
}

// The k-th reading goes into the k-th place.
fn place_readings<A: Arithmetic>(arithmetic: &A, readings: &[i32], memory: &mut [A::Value])
    requires { (length readings.now ≤ 32) × (length memory.old ≡ 1040) }
    ensures { (v : ℕ) → v < length readings.now → slice_get memory.new v ≡ reading_of (A.Arithmetic.meaning arithmetic.now) readings.now v }
{
    // Not over `memory.iter_mut()` beside the readings: after an adapter of it nothing is known of what the places hold.
    for (i, reading) in readings.iter().enumerate() {
        memory[i] = arithmetic.reading(i as u8, *reading);
    }
}
