//! Reads all statements of a program.
ghost use Rattle.std.specs.Prelude.{◌≡◌};
ghost use Rattle.evaluator.specs.Outcomes.{mapped};
ghost use Rattle.reader.specs.Summaries.{main_in, summary};

use crate::checker::Checker;
use crate::counts::{Counts, MOST_NESTED};
use crate::extents::Extent;
use crate::reader::Reader;
use crate::scope::Scope;
use rules::faults::LoadFault;
use rules::program::{MOST_BYTES, Variable};

/// What is known of a text that was read: its extent, how many statements and pars it has, and how many threads.
#[derive(Clone, Copy)]
pub struct Summary {
    pub extent: Extent,
    pub counts: Counts,
}

/// Main's block: the bytes of a program from a place on, which follow its declarations.
pub fn read_main(program: &[u8], from: usize, variables: &[Variable]) -> Result<Summary, LoadFault>
    ensures { result ≡ mapped summary (main_in variables.now from program.now) }
{
    if program.len() > MOST_BYTES {
        return Err(LoadFault::BadLength);
    }
    let text = Reader::new(program, from)?;
    let mut scope = Scope {
        thread: 0,
        nesting: MOST_NESTED,
    };
    let mut checker = Checker::new(variables);
    let extent = checker.read_block(text, 0, &mut scope)?;
    Ok(Summary {
        extent,
        counts: checker.counts,
    })
}
