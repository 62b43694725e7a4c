//! Why a program is not accepted: faults of reading, of a statement, of the program.
ghost use Rattle.std.specs.Prelude.{◌≡◌};
ghost use Rattle.rules.specs.declared.faults.StatementFault.TheVariants.{Reading};
ghost use Rattle.rules.specs.Faults.{reading_number, reading_place, statement_number, statement_place, load_number, load_place, load_layer, load_site};

/// The layer that found a fault.
#[derive(Clone, Copy, PartialEq, Eq, Debug)]
pub enum Layer {
    Reading,
    Statement,
    Program,
}

/// A fault of reading bytes, with its place.
#[derive(Clone, Copy, PartialEq, Eq, Debug)]
pub enum ReadingFault {
    Cut(usize),
    Unknown(usize),
}

/// A fault of a statement: one of reading, or one of its own with its place.
#[derive(Clone, Copy, PartialEq, Eq, Debug)]
pub enum StatementFault {
    Reading(ReadingFault),
    BadExpression(usize),
    WrongVariable(usize),
    OverLimit(usize),
    MayNotPause(usize),
}

/// A statement by its number, with the thread whose text it stands in.
#[derive(Clone, Copy, PartialEq, Eq, Debug)]
pub struct Site {
    pub statement: usize,
    pub thread: usize,
}

/// Why a program is not accepted; what a lower layer found is kept whole.
#[derive(Clone, Copy, PartialEq, Eq, Debug)]
pub enum LoadFault {
    BadLength,
    TooManyVariables,
    CutDeclaration(ReadingFault),
    BadDeclaration(usize),
    Statement(StatementFault, Site),
    TickTooLong,
}

impl From<ReadingFault> for StatementFault {
    ghost from_gives = { λ f r. r ≡ Reading f };

    fn from(fault: ReadingFault) -> StatementFault {
        StatementFault::Reading(fault)
    }
}

impl ReadingFault {
    /// The number by which the outside world knows the fault; it is no `From`, since it does not keep the place.
    pub fn number(self) -> u8
        ensures { result ≡ reading_number self }
    {
        match self {
            ReadingFault::Cut(_) => 2,
            ReadingFault::Unknown(_) => 5,
        }
    }

    /// The byte of the program that it is at.
    pub fn place(self) -> usize
        ensures { result ≡ reading_place self }
    {
        match self {
            ReadingFault::Cut(place) | ReadingFault::Unknown(place) => place,
        }
    }
}

impl StatementFault {
    /// The number by which the outside world knows the fault; it is no `From`, since it does not keep the place.
    pub fn number(self) -> u8
        ensures { result ≡ statement_number self }
    {
        match self {
            StatementFault::Reading(fault) => fault.number(),
            StatementFault::BadExpression(_) => 6,
            StatementFault::WrongVariable(_) => 7,
            StatementFault::OverLimit(_) => 8,
            StatementFault::MayNotPause(_) => 9,
        }
    }

    /// The byte of the program that it is at.
    pub fn place(self) -> usize
        ensures { result ≡ statement_place self }
    {
        match self {
            StatementFault::Reading(fault) => fault.place(),
            StatementFault::BadExpression(place)
            | StatementFault::WrongVariable(place)
            | StatementFault::OverLimit(place)
            | StatementFault::MayNotPause(place) => place,
        }
    }
}

impl LoadFault {
    /// The number by which the outside world knows the fault; it is no `From`, since it does not keep the place.
    pub fn number(self) -> u8
        ensures { result ≡ load_number self }
    {
        match self {
            LoadFault::BadLength => 1,
            LoadFault::TooManyVariables => 3,
            LoadFault::CutDeclaration(fault) => fault.number(),
            LoadFault::BadDeclaration(_) => 4,
            LoadFault::Statement(fault, _) => fault.number(),
            LoadFault::TickTooLong => 10,
        }
    }

    /// The byte of the program that it is at; 0 where no byte is meant, since every fault is told with a place.
    pub fn place(self) -> usize
        ensures { result ≡ load_place self }
    {
        match self {
            LoadFault::BadLength | LoadFault::TooManyVariables | LoadFault::TickTooLong => 0,
            LoadFault::CutDeclaration(fault) => fault.place(),
            LoadFault::BadDeclaration(place) => place,
            LoadFault::Statement(fault, _) => fault.place(),
        }
    }

    /// The layer that found it.
    pub fn layer(self) -> Layer
        ensures { result ≡ load_layer self }
    {
        match self {
            LoadFault::CutDeclaration(_) => Layer::Reading,
            LoadFault::Statement(StatementFault::Reading(_), _) => Layer::Reading,
            LoadFault::Statement(_, _) => Layer::Statement,
            LoadFault::BadLength
            | LoadFault::TooManyVariables
            | LoadFault::BadDeclaration(_)
            | LoadFault::TickTooLong => Layer::Program,
        }
    }

    /// The statement that it was met in and its thread, where there is one.
    pub fn site(self) -> Option<Site>
        ensures { result ≡ load_site self }
    {
        match self {
            LoadFault::Statement(_, site) => Some(site),
            _ => None,
        }
    }
}
