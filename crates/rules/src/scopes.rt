//! Which variables a thread reads, and which it sets.
ghost use Rattle.std.specs.Prelude.{◌≡◌, map};
ghost use Rattle.rules.specs.Scopes.{reads_kind, sets_kind, readable, settable};

use crate::program::{Kind, Variable};

/// What declares a variable.
pub trait Declares {
    ghost use Rattle.rules.specs.declared.program.Variable.{Variable};

    ghost variable: { Self → Variable };

    /// The variable that is declared.
    fn variable(&self) -> Variable
        ensures { result ≡ variable self.now };
}

impl Declares for Variable {
    ghost variable = { λ v. v };

    fn variable(&self) -> Variable {
        *self
    }
}

// Whether a thread reads this variable.
fn reads(variable: Variable, thread: usize) -> bool
    ensures { result ≡ reads_kind variable.kind variable.owner thread }
{
    match variable.kind {
        Kind::Private => variable.owner as usize == thread,
        Kind::Input | Kind::Shared | Kind::Output => true,
    }
}

// Whether a thread sets this variable.
fn sets(variable: Variable, thread: usize) -> bool
    ensures { result ≡ sets_kind variable.kind variable.owner thread }
{
    match variable.kind {
        Kind::Input => false,
        Kind::Private => variable.owner as usize == thread,
        Kind::Shared | Kind::Output => true,
    }
}

/// Whether a thread may read the variable of this number.
pub fn may_read<D: Declares>(declared: &[D], thread: usize, number: u8) -> bool
    ensures { result ≡ readable (map D.Declares.variable declared.now) thread number }
{
    declared
        .get(number as usize)
        .is_some_and(|d| reads(d.variable(), thread))
}

/// Whether a thread may set the variable of this number.
pub fn may_set<D: Declares>(declared: &[D], thread: usize, number: u8) -> bool
    ensures { result ≡ settable (map D.Declares.variable declared.now) thread number }
{
    declared
        .get(number as usize)
        .is_some_and(|d| sets(d.variable(), thread))
}
