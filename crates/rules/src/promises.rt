//! What is promised of the rules.
ghost use Rattle.rules.specs.Worked.{WorkedNumbers};

/// The worked numbers are what the rules give.
pub fn worked_numbers()
    ensures { WorkedNumbers }
{}
