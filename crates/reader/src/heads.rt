//! The head of a statement: all of it but its blocks.
ghost use Rattle.std.specs.Prelude.{◌≡◌, ◌+◌, ◌^◌, ◌<◌, ◌≤◌, length, IfOk};
ghost use Rattle.evaluator.specs.Outcomes.{mapped};
ghost use Rattle.rules.specs.Forms.{has_expression};
ghost use Rattle.rules.specs.Reading.{place_of_code, set_right, expression_of, read_head as head_read};
ghost use Rattle.reader.specs.Counting.{counted};
ghost use Rattle.reader.specs.Readers.{left_of, end_of, statement_place, InTurn};
ghost use Rattle.reader.specs.Seen.{seen, seen_head, Fine};
ghost use Rattle.reader.specs.Steps.{unit};
ghost use Rattle.reader.specs.Told.{told_head, head_at};

use crate::checker::Checker;
use crate::counts::within_limits;
use crate::faults::SitedFault;
use crate::forms::{flags_known, has_byte, has_expression};
use crate::parts::Parts;
use crate::reader::Reader;
use crate::scope::Scope;
use rules::faults::{ReadingFault, Site, StatementFault};
use rules::program::Form;
use rules::scopes::may_set;

/// A statement's form and parts, its checks done; its expression begins at `code_place`.
#[derive(Clone, Copy)]
pub struct Head<'a> {
    pub form: Form,
    pub parts: Parts<'a>,
    pub code_place: usize,
}

// Where the expression of a statement begins.
fn code_begin(form: Form, place: usize) -> usize
    requires { place < 2 ^ 63 }
    ensures { (result ≡ place_of_code form place) × (result ≤ place + 3) }
{
    place + 2 + usize::from(has_byte(form))
}

impl Checker<'_> {
    // Whether a set names a variable that its thread sets.
    fn set_right(&self, thread: usize, form: Form, byte: u8) -> bool
        ensures { result ≡ set_right self.now.variables.now thread form byte }
    {
        form != Form::Set || may_set(self.variables, thread, byte)
    }

    // The expression, if the form has one.
    fn check_code(
        &self,
        form: Form,
        code: &[u8],
        from: usize,
        statement: usize,
        thread: usize,
    ) -> Result<(), StatementFault>
        requires { from + length code.now < 2 ^ 64 }
        ensures { result ≡ mapped unit (expression_of self.now.variables.now thread from statement (has_expression form) code.now) }
    {
        if has_expression(form) {
            self.check_expression(code, from, statement, thread)
        } else {
            Ok(())
        }
    }

    // The head of the statement whose command was just taken.
    fn checked_head<'a>(
        &self,
        command: u8,
        block: &mut Reader<'a>,
        scope: Scope,
    ) -> Result<Head<'a>, StatementFault>
        ensures answer { mapped (seen (left_of block.new)) result ≡ mapped (seen_head (statement_place block.old)) (head_read self.now.variables.now scope.nesting scope.thread (counted self.now.counts) (statement_place block.old) command (left_of block.old)) }
        ensures fine { IfOk result (λ h. Fine (left_of block.old) (left_of block.new) self.now.counts h) }
        ensures in_turn { IfOk result (λ h. InTurn (end_of block.old) (left_of block.new) h.parts.first h.parts.second) }
        ensures end { end_of block.new ≡ end_of block.old }
    {
        let statement = block.statement();
        let form = Form::try_from(command).map_err(|_| ReadingFault::Unknown(statement))?;
        if !within_limits(scope.nesting, form, self.counts) {
            return Err(StatementFault::OverLimit(statement));
        }
        let parts = block.take_parts(form).ok_or(ReadingFault::Cut(statement))?;
        if !flags_known(form, parts.byte) {
            return Err(ReadingFault::Unknown(statement).into());
        }
        if !self.set_right(scope.thread, form, parts.byte) {
            return Err(StatementFault::WrongVariable(statement));
        }
        let code_place = code_begin(form, statement);
        self.check_code(form, parts.code, code_place, statement, scope.thread)?;
        Ok(Head {
            form,
            parts,
            code_place,
        })
    }

    /// The head of the statement whose command was just taken; a fault carries the number that the statement has or would take, and its thread.
    pub(crate) fn read_head<'a>(
        &self,
        command: u8,
        block: &mut Reader<'a>,
        scope: Scope,
    ) -> Result<Head<'a>, SitedFault>
        ensures answer { told_head (left_of block.new) result ≡ mapped (seen_head (statement_place block.old)) (head_at self.now.variables.now scope.nesting scope.thread (counted self.now.counts) (end_of block.old) command (left_of block.old)) }
        ensures fine { IfOk result (λ h. Fine (left_of block.old) (left_of block.new) self.now.counts h) }
        ensures in_turn { IfOk result (λ h. InTurn (end_of block.old) (left_of block.new) h.parts.first h.parts.second) }
        ensures end { end_of block.new ≡ end_of block.old }
    {
        let site = Site {
            statement: self.counts.statements,
            thread: scope.thread,
        };
        self.checked_head(command, block, scope)
            .map_err(|fault| SitedFault { fault, site })
    }
}
