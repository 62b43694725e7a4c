//! What is declared of a variable.
ghost use Rattle.std.specs.Prelude.{◌≡◌, ◌≤ℤ◌};

use arithmetic::operators::Combining;
use rules::program::{Kind, Policy, Variable};
use rules::scopes::Declares;

/// What is declared of a variable. A declaration whose initial value is not within its limits does not exist.
#[derive(Clone, Copy)]
pub struct Declaration {
    variable: Variable,
    ghost not_under: { variable.low ≤ℤ variable.initial },
    ghost not_over: { variable.initial ≤ℤ variable.high },
}

/// The initial value of a variable is not within its limits.
#[derive(Clone, Copy, PartialEq, Eq, Debug)]
pub struct NotWithinLimits;

impl TryFrom<Variable> for Declaration {
    ghost use Rattle.declarations.specs.Declaring.{DeclarationOf};

    type Error = NotWithinLimits;

    ghost try_from_gives = { DeclarationOf };

    fn try_from(variable: Variable) -> Result<Declaration, NotWithinLimits> {
        if variable.low <= variable.initial && variable.initial <= variable.high {
            Ok(Declaration { variable })
        } else {
            Err(NotWithinLimits)
        }
    }
}

impl Declares for Declaration {
    ghost use Rattle.declarations.specs.Declaring.{variable_of};

    ghost variable = { variable_of };

    fn variable(&self) -> Variable {
        self.variable
    }
}

/// An input that reads nothing but 0.
impl Default for Declaration {
    ghost use Rattle.declarations.specs.Declaring.{variable_of, idle_input};

    ghost is_default = { λ d. variable_of d ≡ idle_input };

    fn default() -> Declaration {
        Declaration {
            variable: Variable {
                kind: Kind::Input,
                policy: Policy::All,
                operator: Combining::Sum,
                owner: 0,
                initial: 0,
                low: 0,
                high: 0,
            },
        }
    }
}

impl Declaration {
    ghost use Rattle.declarations.specs.Declaring.{variable_of};

    /// What kind of variable it is.
    pub fn kind(self) -> Kind
        ensures { result ≡ (variable_of self).kind }
    {
        self.variable.kind
    }

    /// Which copies a join takes.
    pub fn policy(self) -> Policy
        ensures { result ≡ (variable_of self).policy }
    {
        self.variable.policy
    }

    /// How a join combines two copies.
    pub fn operator(self) -> Combining
        ensures { result ≡ (variable_of self).operator }
    {
        self.variable.operator
    }

    /// The thread of a private; reading asks for 0 at another variable.
    pub fn owner(self) -> u8
        ensures { result ≡ (variable_of self).owner }
    {
        self.variable.owner
    }

    /// The value that a load gives it.
    pub fn initial(self) -> i32
        ensures { result ≡ (variable_of self).initial }
    {
        self.variable.initial
    }

    /// The lowest number that it may show.
    pub fn low(self) -> i32
        ensures { result ≡ (variable_of self).low }
    {
        self.variable.low
    }

    /// The highest number that it may show.
    pub fn high(self) -> i32
        ensures { result ≡ (variable_of self).high }
    {
        self.variable.high
    }
}
