//! The forms of statements: which operands each has.
ghost use Rattle.std.specs.Prelude.{◌≡◌, ◌≤◌};
ghost use Rattle.rules.specs.Forms.{has_byte, has_expression, has_block, has_second_block, par_count, flags_known};

use rules::program::Form;

/// Whether a byte follows the command: a set's variable, a loop's bound, an abort's flags.
pub fn has_byte(form: Form) -> bool
    ensures { result ≡ has_byte form }
{
    matches!(form, Form::Set | Form::Loop | Form::Abort)
}

/// Whether the statement has an expression.
pub fn has_expression(form: Form) -> bool
    ensures { result ≡ has_expression form }
{
    matches!(form, Form::Set | Form::If | Form::Loop | Form::Abort)
}

/// Whether the statement has a block.
pub fn has_block(form: Form) -> bool
    ensures { result ≡ has_block form }
{
    matches!(form, Form::If | Form::Loop | Form::Par | Form::Abort)
}

/// Whether the statement has a second block.
pub fn has_second_block(form: Form) -> bool
    ensures { result ≡ has_second_block form }
{
    matches!(form, Form::If | Form::Par)
}

/// How many pars the statement is, its blocks apart.
pub fn par_count(form: Form) -> usize
    ensures { (result ≡ par_count form) × (result ≤ 1) }
{
    usize::from(form == Form::Par)
}

/// Whether an abort's flags are known ones; no other form has flags.
pub fn flags_known(form: Form, byte: u8) -> bool
    ensures { result ≡ flags_known form byte }
{
    form != Form::Abort || byte < 4
}
