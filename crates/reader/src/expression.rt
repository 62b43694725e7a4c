//! Checks an expression: postfix commands over at most 16 stacked values.
ghost use Rattle.std.specs.Prelude.{◌≡◌, ◌+◌, ◌^◌, ◌<◌, ◌≤◌, length, IfOk};
ghost use Rattle.evaluator.specs.Commands.{next_command};
ghost use Rattle.evaluator.specs.Outcomes.{mapped};
ghost use Rattle.rules.specs.Reading.{read_expression};
ghost use Rattle.reader.specs.Pieces.{number_rest};
ghost use Rattle.reader.specs.Steps.{one_command, unit};

use crate::checker::Checker;
use evaluator::evaluation::{DEEPEST, LONGEST};
use rules::faults::StatementFault;
use rules::scopes::may_read;

impl Checker<'_> {
    // The first command of the bytes left, with `depth` values stacked: how many are then, and what follows it.
    // The evaluator dispatches on the same bytes, for values: one function for both would part the guards from their cases.
    fn step<'a>(
        &self,
        left: &'a [u8],
        depth: usize,
        place: usize,
        thread: usize,
    ) -> Result<(usize, &'a [u8]), StatementFault>
        requires { depth ≤ 16 }
        ensures answer { mapped number_rest result ≡ one_command self.now.variables.now thread place depth (next_command left.now) }
        ensures shorter { IfOk result (λ p. (length p.1.now < length left.now) × (p.0 ≤ 16)) }
    {
        let [command, rest @ ..] = left else {
            return Err(StatementFault::BadExpression(place));
        };
        match (*command, rest) {
            (0x40, [_, _, _, _, rest @ ..]) if depth < DEEPEST => Ok((depth + 1, rest)),
            (0x41, [variable, rest @ ..]) if depth < DEEPEST => {
                if !may_read(self.variables, thread, *variable) {
                    return Err(StatementFault::WrongVariable(place));
                }
                Ok((depth + 1, rest))
            }
            (0x42..=0x48, _) if depth >= 2 => Ok((depth - 1, rest)),
            (0x49, _) if depth >= 1 => Ok((depth, rest)),
            _ => Err(StatementFault::BadExpression(place)),
        }
    }

    /// Checks the expression whose bytes begin at the place `from`, in the statement at the place `statement`.
    pub(crate) fn check_expression(
        &self,
        code: &[u8],
        from: usize,
        statement: usize,
        thread: usize,
    ) -> Result<(), StatementFault>
        requires { from + length code.now < 2 ^ 64 }
        ensures { result ≡ mapped unit (read_expression self.now.variables.now thread from statement code.now) }
    {
        if code.is_empty() || code.len() > LONGEST {
            return Err(StatementFault::BadExpression(statement));
        }
        let mut left = code;
        let mut depth = 0;
        while !left.is_empty() {
            let place = from + (code.len() - left.len());
            (depth, left) = self.step(left, depth, place, thread)?;
        }
        if depth != 1 {
            return Err(StatementFault::BadExpression(statement));
        }
        Ok(())
    }
}
