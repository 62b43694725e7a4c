//! What a program declares of its variables, and the forms of its statements.
ghost use Rattle.rules.specs.Numbers.{KindOf, PolicyOf, FormOf};

use arithmetic::operators::{Combining, UnknownNumber};

/// The most bytes of a program.
pub const MOST_BYTES: usize = 4096;

/// What kind of variable is declared.
#[derive(Clone, Copy, PartialEq, Eq, Debug)]
pub enum Kind {
    Input,
    Private,
    Shared,
    Output,
}

/// Which copies of a shared variable a join takes.
#[derive(Clone, Copy, PartialEq, Eq, Debug)]
pub enum Policy {
    All,
    New,
    Mod,
}

// No enum with the fields of each kind: a declaration may be made of any of them together, and reading asks for 0 where a kind has none.
/// What is declared of a variable. The owner is a private's thread.
#[derive(Clone, Copy)]
pub struct Variable {
    pub kind: Kind,
    pub policy: Policy,
    pub operator: Combining,
    pub owner: u8,
    pub initial: i32,
    pub low: i32,
    pub high: i32,
}

/// The form of a statement: what its command byte says.
#[derive(Clone, Copy, PartialEq, Eq, Debug)]
pub enum Form {
    Nothing,
    Set,
    Pause,
    If,
    Loop,
    Par,
    Abort,
}

impl TryFrom<u8> for Kind {
    type Error = UnknownNumber;

    ghost try_from_gives = { KindOf };

    fn try_from(number: u8) -> Result<Kind, UnknownNumber> {
        match number {
            0 => Ok(Kind::Input),
            1 => Ok(Kind::Private),
            2 => Ok(Kind::Shared),
            3 => Ok(Kind::Output),
            _ => Err(UnknownNumber(number)),
        }
    }
}

impl TryFrom<u8> for Policy {
    type Error = UnknownNumber;

    ghost try_from_gives = { PolicyOf };

    fn try_from(number: u8) -> Result<Policy, UnknownNumber> {
        match number {
            0 => Ok(Policy::All),
            1 => Ok(Policy::New),
            2 => Ok(Policy::Mod),
            _ => Err(UnknownNumber(number)),
        }
    }
}

impl TryFrom<u8> for Form {
    type Error = UnknownNumber;

    ghost try_from_gives = { FormOf };

    fn try_from(command: u8) -> Result<Form, UnknownNumber> {
        match command {
            0 => Ok(Form::Nothing),
            1 => Ok(Form::Set),
            2 => Ok(Form::Pause),
            3 => Ok(Form::If),
            4 => Ok(Form::Loop),
            5 => Ok(Form::Par),
            6 => Ok(Form::Abort),
            _ => Err(UnknownNumber(command)),
        }
    }
}
