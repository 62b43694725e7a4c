//! Where a block is read: its thread, and how many more nested blocks are allowed.
ghost use Rattle.std.specs.Prelude.{◌≡◌};
ghost use Rattle.rules.specs.Reading.{block_thread};

use rules::program::Form;

/// The thread whose text is read, and how many more nested blocks are allowed.
#[derive(Clone, Copy)]
pub struct Scope {
    pub thread: usize,
    pub nesting: usize,
}

/// Lends out a scope for a block. When it is dropped, thread and nesting are as they were before the block.
// A guard, so that both are put back also where a fault cuts the block short.
pub struct Deeper<'a> {
    pub(crate) scope: &'a mut Scope,
    pub(crate) thread: usize,
    pub(crate) nesting: usize,
}

impl Drop for Deeper<'_> {
    fn drop(self)
        ensures thread { self.exit.0.now.thread ≡ self.entry.thread }
        ensures nesting { self.exit.0.now.nesting ≡ self.entry.nesting }
    {
        self.scope.thread = self.thread;
        self.scope.nesting = self.nesting;
        let Deeper {
            scope: _,
            thread: _,
            nesting: _,
        } = self;
    }
}

/// The thread of a statement's block: an arm is a thread of its own, of the number before `next`; another block is its statement's thread's.
pub fn block_thread(form: Form, thread: usize, next: usize) -> usize
    ensures { result ≡ block_thread form thread next }
{
    match form {
        Form::Par => next.saturating_sub(1),
        _ => thread,
    }
}
