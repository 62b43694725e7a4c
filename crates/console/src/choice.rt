//! Which arithmetic a job reckons in.
ghost use Rattle.std.specs.Prelude.{◌≡◌};

use crate::problem::Problem;
use std::str::FromStr;

/// The arithmetic that a job has chosen.
#[derive(Clone, Copy, PartialEq, Eq, Debug, Default)]
pub enum Choice {
    #[default]
    Plain,
    Tracing,
}

impl FromStr for Choice {
    ghost use Rattle.console.specs.Choices.{choice_named};

    type Err = Problem;

    ghost from_str_gives = { λ name r. r ≡ choice_named name };

    fn from_str(name: &str) -> Result<Choice, Problem> {
        match name {
            "plain" => Ok(Choice::Plain),
            "tracing" => Ok(Choice::Tracing),
            _ => Err(Problem::NoSuchArithmetic),
        }
    }
}
