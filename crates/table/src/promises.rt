//! What is promised of the table of statements.
ghost use Rattle.table.specs.Filling.{FillingGivesTheTable};

/// Filling a table while a program is read gives a row for each statement, in reading order.
pub fn filling_gives_the_table()
    ensures { FillingGivesTheTable }
{}
