//! The declarations of a program.
ghost use Rattle.std.specs.Prelude.{◌≡◌, ◌<◌, ◌≤◌, [], ◌∷◌, ◌++◌, length};
ghost use Rattle.declarations.specs.Declaring.{variable_of, variables_of};

use crate::declaration::Declaration;
use evaluator::rate::MOST_VARIABLES;

// Fixed memory, and copied as a whole: a list of fixed capacity from the library has no `Copy`, and its clone may fail.
/// The declarations of a program's variables, at most 32 of them, in the order of the variables' numbers.
#[derive(Clone, Copy)]
pub struct Declarations {
    list: [Declaration; MOST_VARIABLES],
    count: usize,
    ghost long: { length list ≡ 32 },
    ghost fits: { count ≤ 32 },
}

impl Declarations {
    ghost use Rattle.declarations.specs.Listing.{listed};

    /// No declarations.
    pub fn none() -> Declarations
        ensures { listed result ≡ [] }
    {
        Declarations {
            list: [Declaration::default(); MOST_VARIABLES],
            count: 0,
        }
    }

    /// The declarations in order.
    pub fn as_slice(&self) -> &[Declaration]
        ensures same { variables_of result.now ≡ listed self.now }
        ensures few { length result.now ≤ 32 }
    {
        &self.list[..self.count]
    }

    // One declaration more, behind the others.
    pub(crate) fn push(&mut self, declaration: Declaration)
        requires { length (listed self.old) < 32 }
        ensures { listed self.new ≡ listed self.old ++ variable_of declaration ∷ [] }
    {
        self.list[self.count] = declaration;
        self.count += 1;
    }
}
