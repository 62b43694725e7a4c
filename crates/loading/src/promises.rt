//! What is promised of loading.
ghost use Rattle.loading.specs.Begins.{NoValidProgramBeginsSo};
ghost use Rattle.loading.specs.Writing.{WrittenIsRead, WritingTellsApart};
ghost use Rattle.rules.specs.Promises.{LoadingAcceptsTheValid, TheFirstFaultIsNamed};

/// Loading accepts exactly the valid programs, each by the bytes that it is written as.
pub fn loading_accepts_the_valid()
    ensures { LoadingAcceptsTheValid }
{}

/// A fault that is met while bytes are read in order is the one that loading names: with the length the same, bytes after the 261 from its place on never change it.
pub fn the_first_fault_is_named()
    ensures { TheFirstFaultIsNamed }
{}

/// No valid program is as long as bytes in which a fault is met, and the same through these 261 bytes.
pub fn no_valid_program_begins_so()
    ensures { NoValidProgramBeginsSo }
{}

/// A valid program is read back from the bytes that it is written as.
pub fn written_is_read()
    ensures { WrittenIsRead }
{}

/// Two valid programs are never written alike.
pub fn writing_tells_apart()
    ensures { WritingTellsApart }
{}
