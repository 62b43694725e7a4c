//! What the statements of a program are checked against.
ghost use Rattle.std.specs.Prelude.{◌≡◌};
ghost use Rattle.rules.specs.Reading.{start};
ghost use Rattle.reader.specs.Counting.{counted, Few};

use crate::counts::Counts;
use rules::program::Variable;

// The scope is not among its fields, since the guard lends it for a block.
/// Checks the statements of a program as it reads them: knows the declared variables, and what was counted so far.
#[derive(Drop)]
pub(crate) struct Checker<'a> {
    pub(crate) variables: &'a [Variable],
    pub(crate) counts: Counts,
    ghost few: { Few counts },
}

impl<'a> Checker<'a> {
    /// Before main's block nothing is counted, and the first arm takes number 1.
    pub(crate) fn new(variables: &'a [Variable]) -> Checker<'a>
        ensures variables { result.variables.now ≡ variables.now }
        ensures counts { counted result.counts ≡ start }
    {
        Checker {
            variables,
            counts: Counts {
                statements: 0,
                pars: 0,
                threads: 1,
            },
        }
    }
}
