//! Reads blocks by their statements, and statements by their blocks.
ghost use Rattle.std.specs.Prelude.{◌≡◌, suc, ◌≤◌, length, OnOk};
ghost use Rattle.evaluator.specs.Outcomes.{mapped};
ghost use Rattle.rules.specs.Reading.{read_block as block_read, read_statement as statement_read};
ghost use Rattle.reader.specs.Counting.{counted};
ghost use Rattle.reader.specs.Readers.{left_of, end_of};
ghost use Rattle.reader.specs.Told.{with_counts, with_counts_and_left, sum_block, sum_statement};

use crate::checker::Checker;
use crate::extents::Extent;
use crate::forms::par_count;
use crate::reader::Reader;
use crate::scope::{Deeper, Scope, block_thread};
use rules::faults::LoadFault;

impl Checker<'_> {
    /// A block of a thread: all that the reader has left.
    #[cycle(reading)]
    pub(crate) fn read_block(
        &mut self,
        block: Reader<'_>,
        thread: usize,
        scope: &mut Scope,
    ) -> Result<Extent, LoadFault>
        ensures answer { mapped (with_counts (counted self.new.counts)) result ≡ mapped (sum_block (counted self.old.counts)) (block_read self.old.variables.now scope.old.nesting thread (counted self.old.counts) (end_of block.entry) (left_of block.entry)) }
        ensures variables { self.new.variables.now ≡ self.old.variables.now }
        ensures scope { scope.new ≡ scope.old }
    {
        let outer = scope.thread;
        let nesting = scope.nesting;
        if nesting == 0 || block.is_empty() {
            return Ok(Extent::default());
        }
        scope.thread = thread;
        scope.nesting = nesting - 1;
        let guard = Deeper {
            scope,
            thread: outer,
            nesting,
        };
        self.read_statements(block, &mut *guard.scope)
    }

    // Statements of the scope's thread, to the end of their block.
    #[cycle(reading)]
    fn read_statements(
        &mut self,
        mut block: Reader<'_>,
        scope: &mut Scope,
    ) -> Result<Extent, LoadFault>
        ensures answer { mapped (with_counts (counted self.new.counts)) result ≡ mapped (sum_block (counted self.old.counts)) (block_read self.old.variables.now (suc scope.old.nesting) scope.old.thread (counted self.old.counts) (end_of block.entry) (left_of block.entry)) }
        ensures variables { self.new.variables.now ≡ self.old.variables.now }
        ensures scope { scope.new ≡ scope.old }
    {
        let mut extent = Extent::default();
        while let Some(command) = block.byte() {
            let one = self.read_statement(command, &mut block, scope)?;
            extent = extent.joined(one);
        }
        Ok(extent)
    }

    // The statement whose command was just taken.
    #[cycle(reading)]
    fn read_statement(
        &mut self,
        command: u8,
        block: &mut Reader<'_>,
        scope: &mut Scope,
    ) -> Result<Extent, LoadFault>
        ensures answer { mapped (with_counts_and_left (counted self.new.counts) (left_of block.new)) result ≡ mapped (sum_statement (counted self.old.counts)) (statement_read self.old.variables.now scope.old.nesting (block_read self.old.variables.now scope.old.nesting) scope.old.thread (counted self.old.counts) (end_of block.old) command (left_of block.old)) }
        ensures shorter { OnOk result (length (left_of block.new) ≤ length (left_of block.old)) }
        ensures end { end_of block.new ≡ end_of block.old }
        ensures variables { self.new.variables.now ≡ self.old.variables.now }
        ensures scope { scope.new ≡ scope.old }
    {
        let head = self.read_head(command, block, *scope)?;
        let form = head.form;
        let forks = par_count(form);
        let thread = scope.thread;
        self.counts.statements += 1;
        self.counts.pars += forks;
        self.counts.threads += forks;
        let owner = block_thread(form, thread, self.counts.threads);
        let first = self.read_block(head.parts.first, owner, scope)?;
        self.counts.threads += forks;
        let owner = block_thread(form, thread, self.counts.threads);
        let second = self.read_block(head.parts.second, owner, scope)?;
        Ok(Extent::built(form, head.parts.byte, first, second))
    }
}
