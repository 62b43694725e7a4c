//! Why a call is refused.
ghost use Rattle.std.specs.Prelude.{◌≡◌};
ghost use Rattle.rules.specs.Refusals.{call_number};

use crate::faults::LoadFault;

/// Why a call to a controller is refused.
#[derive(Clone, Copy, PartialEq, Eq, Debug)]
pub enum CallRefusal {
    Program(LoadFault),
    Memory,
    TickOpen,
    NothingLoaded,
    MainEnded,
    Readings,
    NoTick,
    NotReady,
    StepsRemain,
    Space,
}

impl CallRefusal {
    /// The number by which the outside world knows the refusal; it is no `From`, since it does not keep a fault's place.
    pub fn number(self) -> u8
        ensures { result ≡ call_number self }
    {
        match self {
            CallRefusal::Program(fault) => fault.number(),
            CallRefusal::Memory => 11,
            CallRefusal::TickOpen => 12,
            CallRefusal::NothingLoaded => 13,
            CallRefusal::MainEnded => 14,
            CallRefusal::Readings => 15,
            CallRefusal::NoTick => 16,
            CallRefusal::NotReady => 17,
            CallRefusal::StepsRemain => 18,
            CallRefusal::Space => 19,
        }
    }
}
