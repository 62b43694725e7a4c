//! What the console answers to a line.
ghost use Rattle.std.specs.Prelude.{Some};
ghost use Rattle.console.specs.Texts.{rate_text, answer_text};

use crate::tally::Tally;
use arithmetic::traced::Traced;
use evaluator::refusal::Refusal;
use std::fmt;

/// A rate in the arithmetic that the job has chosen.
#[derive(Clone, Copy)]
pub enum Rate {
    Plain(i32),
    Traced(Traced),
}

/// The answer to a line that has one.
#[derive(Clone, Copy)]
pub enum Answer {
    Evaluated(Result<Rate, Refusal>),
    Summary(Tally),
}

// By hand, as the next one: a derived `Display` has no contract.
impl fmt::Display for Rate {
    ghost output = { λ r. Some (rate_text r) };

    fn fmt<W: fmt::Write>(&self, f: &mut fmt::Formatter<W>) -> fmt::Result {
        match *self {
            Rate::Plain(number) => write!(f, "{number} -"),
            Rate::Traced(Traced { number, mask }) => write!(f, "{number} {mask:08x}"),
        }
    }
}

impl fmt::Display for Answer {
    ghost output = { λ a. Some (answer_text a) };

    fn fmt<W: fmt::Write>(&self, f: &mut fmt::Formatter<W>) -> fmt::Result {
        match *self {
            Answer::Evaluated(Ok(rate)) => write!(f, "evaluate: {rate}"),
            Answer::Evaluated(Err(refusal)) => {
                let number = refusal.number();
                let place = refusal.place();
                write!(f, "evaluate: refused {number} place {place}")
            }
            Answer::Summary(tally) => write!(f, "summary: {tally}"),
        }
    }
}
