//! One line of a job: a command with its words.
ghost use Rattle.std.specs.Prelude.{◌≡◌, ◌≤◌, length, vec_items};
ghost use Rattle.evaluator.specs.Outcomes.{mapped};
ghost use Rattle.console.specs.Choices.{choice_in};
ghost use Rattle.console.specs.Decimal.{numbers_from};
ghost use Rattle.console.specs.Lines.{said, evaluation_said, limits_shown, limits_in, readings_in, evaluation_in, only_word, command_line, asked_for, line_of, ReadsAs};
ghost use Rattle.console.specs.Outcomes.{Gives};
ghost use Rattle.console.specs.Splitting.{texts};

use crate::choice::Choice;
use crate::problem::Problem;
use crate::words::{expression_at, number_at, words_of};
use evaluator::limits::Limits;
use evaluator::rate::{Formula, MOST_VARIABLES};
use std::alloc::Global;

/// An expression to evaluate, with the readings of input variables 0, 1, .., and the limits of the rate.
#[derive(Drop)]
pub struct Evaluation {
    pub limits: Limits,
    pub code: Vec<u8>,
    pub readings: Vec<i32>,
}

impl Evaluation {
    // The formula that it evaluates.
    pub(crate) fn formula(&self) -> Formula<'_>
        ensures limits { result.limits ≡ self.now.limits }
        ensures code { result.code.now ≡ vec_items self.now.code }
    {
        Formula {
            limits: self.limits,
            code: self.code.as_slice(),
        }
    }
}

/// What a line asks for, where it asks for something.
#[derive(Drop)]
pub enum Line {
    Arithmetic(Choice),
    Evaluate(Evaluation),
    Summary,
}

// The place of the first reading in a line `evaluate LOW HIGH HEX R R ..`.
const FIRST_READING: usize = 5;

// The limits in two decimal words, words 2 and 3 of their line.
fn limits_in(low: &str, high: &str) -> Result<Limits, Problem>
    ensures { mapped limits_shown result ≡ limits_in low.now high.now }
{
    let low = number_at(2, low)?;
    let high = number_at(3, high)?;
    Limits::new(low, high).ok_or(Problem::LowOverHigh)
}

// The numbers of words, of which the first is word 5 of its line. A loop and no chain, since the contract says which problem is told.
fn numbers_in(heap: Global, words: &[&str]) -> Result<Vec<i32>, Problem>
    requires { length words.now ≤ 32 }
    ensures { Gives vec_items (numbers_from 5 (texts words.now)) result }
{
    let mut numbers = Vec::new(heap);
    for (i, word) in words.iter().enumerate() {
        let number = number_at(FIRST_READING + i, word)?;
        numbers.push(number)?;
    }
    Ok(numbers)
}

// The readings of input variables 0, 1, .., at most 32.
fn readings_in(heap: Global, words: &[&str]) -> Result<Vec<i32>, Problem>
    ensures { Gives vec_items (readings_in (texts words.now)) result }
{
    if words.len() > MOST_VARIABLES {
        return Err(Problem::TooManyReadings);
    }
    numbers_in(heap, words)
}

// What stands after `evaluate`.
fn evaluation_in(heap: Global, words: &[&str]) -> Result<Evaluation, Problem>
    ensures { Gives evaluation_said (evaluation_in (texts words.now)) result }
{
    let [low, high, code, readings @ ..] = words else {
        return Err(Problem::MissingWord);
    };
    let limits = limits_in(low, high)?;
    let code = expression_at(heap, 4, code)?;
    let readings = readings_in(heap, readings)?;
    Ok(Evaluation {
        limits,
        code,
        readings,
    })
}

// What stands after `arithmetic`.
fn choice_in(words: &[&str]) -> Result<Choice, Problem>
    ensures { result ≡ choice_in (texts words.now) }
{
    match words {
        [] => Err(Problem::MissingWord),
        [name] => name.parse(),
        _ => Err(Problem::ExtraWord),
    }
}

// The line of a command that takes no words.
fn only_word(line: Line, words: &[&str]) -> Result<Line, Problem>
    ensures { mapped said result ≡ only_word (said line) (texts words.now) }
{
    if words.is_empty() {
        Ok(line)
    } else {
        Err(Problem::ExtraWord)
    }
}

// The line of a command and the words after it.
fn command_line(heap: Global, command: &str, words: &[&str]) -> Result<Line, Problem>
    ensures { Gives said (command_line command.now (texts words.now)) result }
{
    match command {
        "arithmetic" => choice_in(words).map(Line::Arithmetic),
        "evaluate" => evaluation_in(heap, words).map(Line::Evaluate),
        "summary" => only_word(Line::Summary, words),
        _ => Err(Problem::NoSuchCommand),
    }
}

// The line of all its words; none, or a first word that begins with `#`, ask for nothing.
fn line_of(heap: Global, words: &[&str]) -> Result<Option<Line>, Problem>
    ensures { Gives asked_for (line_of (texts words.now)) result }
{
    match words {
        [] => Ok(None),
        [first, ..] if first.starts_with('#') => Ok(None),
        [command, rest @ ..] => command_line(heap, command, rest).map(Some),
    }
}

/// What a line of text asks for, if it asks for something.
pub fn parse(heap: Global, text: &str) -> Result<Option<Line>, Problem>
    ensures { ReadsAs text.now result }
{
    let words = words_of(heap, text)?;
    line_of(heap, words.as_slice())
}
