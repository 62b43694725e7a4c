//! What a job has done so far.
ghost use Rattle.std.specs.Prelude.{Some};
ghost use Rattle.console.specs.Texts.{tally_text};

use std::fmt;

/// How much a job has done, and the tick length of the program that is loaded, 0 with none.
#[derive(Clone, Copy, Default)]
pub struct Tally {
    pub loads: u64,
    pub ticks: u64,
    pub steps: u64,
    pub refusals: u64,
    pub longest_tick: u64,
    pub tick_length: u64,
}

// By hand: a derived `Display` has no contract.
impl fmt::Display for Tally {
    ghost output = { λ t. Some (tally_text t) };

    fn fmt<W: fmt::Write>(&self, f: &mut fmt::Formatter<W>) -> fmt::Result {
        let Tally {
            loads,
            ticks,
            steps,
            refusals,
            longest_tick,
            tick_length,
        } = *self;
        write!(
            f,
            "loads {loads} ticks {ticks} steps {steps} refusals {refusals} longest tick {longest_tick} of {tick_length}"
        )
    }
}
