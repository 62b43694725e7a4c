//! A job under way: the arithmetic that it has chosen, and what it has done.
ghost use Rattle.std.specs.Prelude.{◌≡◌, option_and_then, option_copied};
ghost use Rattle.std.specs.Option.{option_map_or};
ghost use Rattle.console.specs.Lines.{asked_for, evaluation_said};
ghost use Rattle.console.specs.Sessions.{fresh, evaluated_by, counted, performed, answered, Took};

use crate::answer::{Answer, Rate};
use crate::choice::Choice;
use crate::line::{Evaluation, Line, parse};
use crate::problem::Problem;
use crate::tally::Tally;
use evaluator::refusal::Refusal;
use std::alloc::Global;

/// A job under way.
#[derive(Clone, Copy, Default)]
pub struct Session {
    choice: Choice,
    tally: Tally,
}

// The rate of an evaluation in an arithmetic.
fn rate_in(choice: Choice, evaluation: &Evaluation) -> Result<Rate, Refusal>
    ensures { result ≡ evaluated_by choice (evaluation_said evaluation.now) }
{
    let formula = evaluation.formula();
    let readings = evaluation.readings.as_slice();
    // A match and no closure, since the two rates are of two types.
    match choice {
        Choice::Plain => formula.plain_rate(readings).map(Rate::Plain),
        Choice::Tracing => formula.traced_rate(readings).map(Rate::Traced),
    }
}

impl Session {
    /// A job that has done nothing, in the plain arithmetic.
    pub fn new() -> Session
        ensures { result ≡ fresh }
    {
        Session::default()
    }

    // Evaluates in the chosen arithmetic, and counts a refusal.
    fn evaluate(&mut self, evaluation: &Evaluation) -> Result<Rate, Refusal>
        ensures rate { result ≡ evaluated_by self.old.choice (evaluation_said evaluation.now) }
        ensures state { self.new ≡ record self.old { tally = counted (evaluated_by self.old.choice (evaluation_said evaluation.now)) self.old.tally } }
    {
        let rate = rate_in(self.choice, evaluation);
        if rate.is_err() {
            self.tally.refusals = self.tally.refusals.saturating_add(1);
        }
        rate
    }

    /// Performs a line and answers it, if it has an answer; a line that asks for nothing changes nothing.
    pub fn perform(&mut self, line: Option<&Line>) -> Option<Answer>
        ensures answer { result ≡ option_and_then (answered self.old) (asked_for (option_copied line.entry)) }
        ensures state { self.new ≡ option_map_or (performed self.old) (asked_for (option_copied line.entry)) self.old }
    {
        match line {
            None => None,
            Some(Line::Arithmetic(choice)) => {
                self.choice = *choice;
                None
            }
            Some(Line::Evaluate(evaluation)) => Some(Answer::Evaluated(self.evaluate(evaluation))),
            Some(Line::Summary) => Some(Answer::Summary(self.tally)),
        }
    }

    /// Reads a line of text, performs it and answers it; a bad line changes nothing.
    pub fn take_line(&mut self, heap: Global, text: &str) -> Result<Option<Answer>, Problem>
        ensures { Took self.old text.now result self.new }
    {
        let line = parse(heap, text)?;
        Ok(self.perform(line.as_ref()))
    }
}
