//! What is promised of every expression and all readings.
ghost use Rattle.evaluator.specs.Promises.{ReadingInvertsWriting, TracingKeepsTheRate, AbsentProbesDidNotEnter};

/// Bytes are read as certain commands exactly if those commands are written as the bytes.
pub fn reading_inverts_writing()
    ensures { ReadingInvertsWriting }
{}

/// The number that a traced rate shows is the plain one.
pub fn tracing_keeps_the_rate()
    ensures { TracingKeepsTheRate }
{}

/// A probe whose bit is not in the mask did not enter the rate.
pub fn absent_probes_did_not_enter()
    ensures { AbsentProbesDidNotEnter }
{}
