//! The evaluator: from the bytes of an expression to its value.
ghost use Rattle.std.specs.Prelude.{◌≡◌, ◌<◌, [], ◌∷◌, length, take, IfOk, ◌≢◌};
ghost use Rattle.arithmetic.specs.Meaning.{two, inverse};
ghost use Rattle.evaluator.specs.Commands.{next_command, commands_of};
ghost use Rattle.evaluator.specs.Evaluating.{stack_one, stack_found, operate_two, operate_one, only, value_of, taken, run, evaluated, evaluated_in};
ghost use Rattle.evaluator.specs.Outcomes.{leaving, leaving_with};
ghost use Rattle.stack.specs.Stacks.{stacked, room};

use crate::refusal::Refusal;
use crate::scope::Scope;
use arithmetic::Arithmetic;
use arithmetic::operators::Operator;
use stack::Stack;

/// The places of variables in the value memory; the work places come after them.
pub const VARIABLE_PLACES: usize = 1024;

/// All places of the value memory.
pub const ALL_PLACES: usize = 1040;

/// The most values that are stacked at once.
pub const DEEPEST: usize = 16;

/// The most bytes of an expression.
pub const LONGEST: usize = 64;

// An expression's evaluation: the arithmetic and the scope that it goes by, what the variables hold, and the stack of its values, with room for 16.
// The variables and the stack have each a lifetime of its own: where one shares another's, the check does not know what the memory holds in the end.
#[derive(Drop)]
struct Evaluation<'a, 'v, 'm, A: Arithmetic, S> {
    arithmetic: &'a A,
    scope: &'a S,
    variables: &'v [A::Value],
    stack: Stack<'m, A::Value>,
    ghost sixteen: { room stack ≡ 16 },
}

impl<'a, 'v, 'm, A: Arithmetic, S: Scope> Evaluation<'a, 'v, 'm, A, S> {
    ghost use Rattle.evaluator.specs.Evaluations.{SameSetting};

    // Nothing is stacked yet; there is room for a value in each of the work places.
    fn new(
        arithmetic: &'a A,
        scope: &'a S,
        variables: &'v [A::Value],
        work: &'m mut [A::Value],
    ) -> Self
        requires { length work.old ≡ 16 }
        ensures arithmetic { result.arithmetic ≡ arithmetic.entry }
        ensures scope { result.scope ≡ scope.entry }
        ensures variables { result.variables ≡ variables.entry }
        ensures empty { stacked result.stack ≡ [] }
    {
        Evaluation {
            arithmetic,
            scope,
            variables,
            stack: Stack::new(work),
        }
    }

    // One value more for the command at a place.
    fn stack_value(&mut self, value: A::Value, place: usize) -> Result<(), Refusal>
        ensures answer { leaving (stacked self.new.stack) result ≡ stack_one place value (stacked self.old.stack) }
        ensures setting { SameSetting self.old self.new }
    {
        self.stack
            .push(value)
            .map_err(|_| Refusal::BadExpression(place))
    }

    // What a variable holds, if it can be read.
    fn variable_value(&self, variable: u8) -> Option<A::Value>
        ensures { result ≡ value_of self.now.variables.now (S.Scope.places self.now.scope.now) variable }
    {
        self.variables.get(self.scope.place(variable)?).copied()
    }

    // The value of a variable is stacked.
    fn stack_variable(&mut self, variable: u8, place: usize) -> Result<(), Refusal>
        requires { length (stacked self.old.stack) < 16 }
        ensures answer { leaving (stacked self.new.stack) result ≡ stack_found place (value_of self.old.variables.now (S.Scope.places self.old.scope.now) variable) (stacked self.old.stack) }
        ensures setting { SameSetting self.old self.new }
    {
        let value = self
            .variable_value(variable)
            .ok_or(Refusal::WrongVariable(place))?;
        self.stack_value(value, place)
    }

    // An operator on the two values stacked last.
    fn operate_on_two(&mut self, operator: Operator, place: usize) -> Result<(), Refusal>
        ensures answer { leaving (stacked self.new.stack) result ≡ operate_two place (λ x y. (A.Arithmetic.meaning self.old.arithmetic.now).operated (two operator x y)) (stacked self.old.stack) }
        ensures setting { SameSetting self.old self.new }
    {
        let second = self.stack.pop().ok_or(Refusal::BadExpression(place))?;
        let first = self.stack.pop().ok_or(Refusal::BadExpression(place))?;
        self.stack_value(self.arithmetic.binary(operator, first, second), place)
    }

    // The operator `not` on the value stacked last.
    fn operate_on_one(&mut self, place: usize) -> Result<(), Refusal>
        ensures answer { leaving (stacked self.new.stack) result ≡ operate_one place (λ x. (A.Arithmetic.meaning self.old.arithmetic.now).operated (inverse x)) (stacked self.old.stack) }
        ensures setting { SameSetting self.old self.new }
    {
        let value = self.stack.pop().ok_or(Refusal::BadExpression(place))?;
        self.stack_value(self.arithmetic.inverted(value), place)
    }

    // The first command of the bytes left; answers the bytes after it.
    // The reader dispatches on the same bytes, for depth and scope: one function for both would part the guards from their cases.
    fn perform<'c>(&mut self, code: &'c [u8], place: usize) -> Result<&'c [u8], Refusal>
        ensures answer { leaving_with (stacked self.new.stack) result ≡ taken (A.Arithmetic.meaning self.old.arithmetic.now) (value_of self.old.variables.now (S.Scope.places self.old.scope.now)) place (next_command code.now) (stacked self.old.stack) }
        ensures shorter { IfOk result (λ rest. length rest.now < length code.now) }
        ensures setting { SameSetting self.old self.new }
    {
        let [command, rest @ ..] = code else {
            return Err(Refusal::BadExpression(place));
        };
        let depth = self.stack.depth();
        match (*command, rest) {
            (0x40, [a, b, c, d, rest @ ..]) if depth < DEEPEST => {
                let number = i32::from_le_bytes([*a, *b, *c, *d]);
                self.stack_value(self.arithmetic.constant(number), place)?;
                Ok(rest)
            }
            (0x41, [variable, rest @ ..]) if depth < DEEPEST => {
                self.stack_variable(*variable, place)?;
                Ok(rest)
            }
            (command @ 0x42..=0x48, _) if depth >= 2 => {
                let operator = Operator::try_from(command).map_err(|_| Refusal::BadExpression(
                    place,
                ))?;
                self.operate_on_two(operator, place)?;
                Ok(rest)
            }
            (0x49, _) if depth >= 1 => {
                self.operate_on_one(place)?;
                Ok(rest)
            }
            _ => Err(Refusal::BadExpression(place)),
        }
    }

    // All commands in turn.
    fn run(&mut self, code: &[u8]) -> Result<(), Refusal>
        requires { stacked self.old.stack ≡ [] }
        ensures answer { leaving (stacked self.new.stack) result ≡ run (A.Arithmetic.meaning self.old.arithmetic.now) (value_of self.old.variables.now (S.Scope.places self.old.scope.now)) (commands_of code.now) [] }
        ensures setting { SameSetting self.old self.new }
    {
        let mut rest = code;
        while !rest.is_empty() {
            let place = code.len() - rest.len();
            rest = self.perform(rest, place)?;
        }
        Ok(())
    }

    // The one value that remains.
    fn remaining(&mut self) -> Result<A::Value, Refusal>
        ensures { result ≡ only (stacked self.old.stack) }
    {
        if self.stack.depth() != 1 {
            return Err(Refusal::BadExpression(0));
        }
        self.stack.pop().ok_or(Refusal::BadExpression(0))
    }

    // The value of an expression's bytes.
    fn value(&mut self, code: &[u8]) -> Result<A::Value, Refusal>
        requires { stacked self.old.stack ≡ [] }
        ensures { result ≡ evaluated (A.Arithmetic.meaning self.old.arithmetic.now) (value_of self.old.variables.now (S.Scope.places self.old.scope.now)) code.now }
    {
        if code.is_empty() || code.len() > LONGEST {
            return Err(Refusal::BadExpression(0));
        }
        self.run(code)?;
        self.remaining()
    }
}

/// The value of an expression over a value memory of 1,040 places, or the first thing that is wrong with it.
pub fn evaluate<A: Arithmetic, S: Scope>(
    arithmetic: &A,
    scope: &S,
    code: &[u8],
    memory: &mut [A::Value],
) -> Result<A::Value, Refusal>
    ensures answer { result ≡ evaluated_in (A.Arithmetic.meaning arithmetic.now) (S.Scope.places scope.now) memory.old code.now }
    ensures variables { take 1024 memory.new ≡ take 1024 memory.old }
    ensures refused { (length memory.old ≢ 1040) → memory.new ≡ memory.old }
{
    if memory.len() != ALL_PLACES {
        return Err(Refusal::Memory);
    }
    let (variables, work) = memory.split_at_mut(VARIABLE_PLACES);
    Evaluation::new(arithmetic, scope, variables, work).value(code)
}
