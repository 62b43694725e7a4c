//! The parts of a statement's bytes: its byte, its expression, its blocks.
ghost use Rattle.std.specs.Prelude.{◌≡◌, ℕ, IfSome, IfNone};
ghost use Rattle.std.specs.Option.{ok_or};
ghost use Rattle.evaluator.specs.Outcomes.{mapped};
ghost use Rattle.rules.specs.Reading.{parts_in};
ghost use Rattle.rules.specs.declared.faults.ReadingFault.TheVariants.{Cut};
ghost use Rattle.reader.specs.Pieces.{pieces};
ghost use Rattle.reader.specs.Readers.{left_of, end_of, InTurn};

use crate::forms::{has_block, has_byte, has_expression, has_second_block};
use crate::reader::Reader;
use rules::program::Form;

// An enum with the operands of each form would take the same parts in seven arms.
/// What follows a command byte. What there is none of is 0 or empty.
#[derive(Clone, Copy)]
pub struct Parts<'a> {
    pub byte: u8,
    pub code: &'a [u8],
    pub first: Reader<'a>,
    pub second: Reader<'a>,
}

impl<'a> Reader<'a> {
    /// The parts of a statement of this form, whose command was just taken; none, and nothing taken, where the block around it does not have their bytes.
    pub fn take_parts(&mut self, form: Form) -> Option<Parts<'a>>
        ensures answer { (p : ℕ) → mapped (pieces (left_of self.new)) (ok_or result (Cut p)) ≡ parts_in p form (left_of self.old) }
        ensures in_turn { IfSome result (λ parts. InTurn (end_of self.old) (left_of self.new) parts.first parts.second) }
        ensures refused { IfNone result (self.new ≡ self.old) }
        ensures end { end_of self.new ≡ end_of self.old }
    {
        let mut rest = *self;
        let byte = if has_byte(form) { rest.byte()? } else { 0 };
        let long = if has_expression(form) {
            rest.byte()?
        } else {
            0
        };
        let code = rest.part(long.into())?.left();
        let first_length = if has_block(form) { rest.length()? } else { 0 };
        let second_length = if has_second_block(form) {
            rest.length()?
        } else {
            0
        };
        let first = rest.part(first_length)?;
        let second = rest.part(second_length)?;
        *self = rest;
        Some(Parts {
            byte,
            code,
            first,
            second,
        })
    }
}
