//! What a controller knows of each statement. Statements are known by their numbers and expressions by their places, since the table stands in fixed memory.
ghost use Rattle.std.specs.Prelude.{◌≡◌};
ghost use Rattle.table.specs.Filling.{blank_row};

/// An expression: a part of the program's bytes.
#[derive(Clone, Copy, PartialEq, Eq, Debug)]
pub struct Code {
    pub from: u16,
    pub length: u8,
}

/// An arm of a par: its thread, and the first statement of its text if it has one.
#[derive(Clone, Copy, PartialEq, Eq, Debug)]
pub struct Arm {
    pub thread: u8,
    pub first: Option<u16>,
}

/// What a statement does, with its operands and the first statements of its blocks. An abort says first whether it is weak, and then whether it is immediate.
#[derive(Clone, Copy, PartialEq, Eq, Debug)]
pub enum Task {
    Nothing,
    Set(u8, Code),
    Pause,
    If(Code, Option<u16>, Option<u16>),
    Loop(u8, Code, Option<u16>),
    Par(Arm, Arm),
    Abort(bool, bool, Code, Option<u16>),
}

/// A statement: what it does, the place of its command, its thread, the statement whose block it stands in, and the statement that follows it in its block.
#[derive(Clone, Copy, PartialEq, Eq, Debug)]
pub struct Row {
    pub task: Task,
    pub place: u16,
    pub thread: u8,
    pub inside: Option<u16>,
    pub next: Option<u16>,
}

impl Row {
    /// The row that stands where no statement is yet.
    pub fn blank() -> Row
        ensures { result ≡ blank_row }
    {
        Row {
            task: Task::Nothing,
            place: 0,
            thread: 0,
            inside: None,
            next: None,
        }
    }
}
