//! Reads declarations from the bytes of a program.
ghost use Rattle.std.specs.Prelude.{◌≡◌};
ghost use Rattle.evaluator.specs.Outcomes.{mapped};
ghost use Rattle.rules.specs.Reading.{zeros_right, read_declaration};
ghost use Rattle.rules.specs.declared.faults.LoadFault.TheVariants.{BadDeclaration};
ghost use Rattle.declarations.specs.Declaring.{variable_of};

use crate::declaration::Declaration;
use arithmetic::operators::Combining;
use rules::faults::LoadFault;
use rules::program::{Kind, Policy, Variable};

/// How many bytes a declaration has.
pub const DECLARATION_BYTES: usize = 16;

/// Whether policy, operator and owner are 0 where the kind has none.
pub fn zeros_right(kind: Kind, policy: u8, operator: u8, owner: u8) -> bool
    ensures { result ≡ zeros_right kind policy operator owner }
{
    match kind {
        Kind::Input => policy == 0 && operator == 0 && owner == 0,
        Kind::Private => policy == 0 && operator == 0,
        Kind::Shared | Kind::Output => owner == 0,
    }
}

/// The declaration in 16 bytes at a place of the program.
pub(crate) fn declaration_in(
    bytes: &[u8; DECLARATION_BYTES],
    place: usize,
) -> Result<Declaration, LoadFault>
    ensures { mapped variable_of result ≡ read_declaration (BadDeclaration place) bytes.now }
{
    let bad = LoadFault::BadDeclaration(place);
    let [kind, policy, operator, owner, ..] = *bytes;
    let [.., i0, i1, i2, i3, l0, l1, l2, l3, h0, h1, h2, h3] = *bytes;
    let variable = Variable {
        kind: Kind::try_from(kind).map_err(|_| bad)?,
        policy: Policy::try_from(policy).map_err(|_| bad)?,
        operator: Combining::try_from(operator).map_err(|_| bad)?,
        owner,
        initial: i32::from_le_bytes([i0, i1, i2, i3]),
        low: i32::from_le_bytes([l0, l1, l2, l3]),
        high: i32::from_le_bytes([h0, h1, h2, h3]),
    };
    if !zeros_right(variable.kind, policy, operator, owner) {
        return Err(bad);
    }
    Declaration::try_from(variable).map_err(|_| bad)
}
