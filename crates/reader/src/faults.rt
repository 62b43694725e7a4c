//! A statement's fault, with the statement and its thread added, becomes one of the program.
ghost use Rattle.std.specs.Prelude.{◌≡◌};
ghost use Rattle.rules.specs.declared.faults.LoadFault.TheVariants.{Statement as statement_fault};

use rules::faults::{LoadFault, Site, StatementFault};

/// A statement's fault, kept whole, with the statement and its thread.
// `LoadFault::Statement` holds the same two; a type of their own, since `From` takes one value, and by it `?` makes them a fault of the program.
#[derive(Clone, Copy)]
pub struct SitedFault {
    pub fault: StatementFault,
    pub site: Site,
}

impl From<SitedFault> for LoadFault {
    ghost from_gives = { λ f r. r ≡ statement_fault f.fault f.site };

    fn from(sited: SitedFault) -> LoadFault {
        LoadFault::Statement(sited.fault, sited.site)
    }
}
