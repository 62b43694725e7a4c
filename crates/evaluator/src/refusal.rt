//! Why an expression has no value.
ghost use Rattle.std.specs.Prelude.{◌≡◌};
ghost use Rattle.evaluator.specs.Refusals.{refusal_number, refusal_place};

/// Why an expression has no value; with the place of the command concerned, counted from the expression's byte 0.
#[derive(Clone, Copy, PartialEq, Eq, Debug)]
pub enum Refusal {
    BadExpression(usize),
    WrongVariable(usize),
    Memory,
    Readings,
}

impl Refusal {
    // No `From` into a number, since the number loses the place and a `From` loses nothing.
    /// The number by which the outside world knows the refusal.
    pub fn number(self) -> u8
        ensures { result ≡ refusal_number self }
    {
        match self {
            Refusal::BadExpression(_) => 6,
            Refusal::WrongVariable(_) => 7,
            Refusal::Memory => 11,
            Refusal::Readings => 15,
        }
    }

    /// The place that it carries; 0 where it is at no command, since every refusal is told with a place.
    pub fn place(self) -> usize
        ensures { result ≡ refusal_place self }
    {
        match self {
            Refusal::BadExpression(place) | Refusal::WrongVariable(place) => place,
            Refusal::Memory | Refusal::Readings => 0,
        }
    }
}
