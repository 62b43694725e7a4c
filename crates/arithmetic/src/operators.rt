//! The operators of expressions, those that combine two copies, and the numbers that programs give them.
ghost use Rattle.std.specs.Prelude.{◌≡◌};
ghost use Rattle.arithmetic.specs.Operators.{operator_byte, combining_number, OperatorOf, CombiningOf};

/// A number that stands for none of the cases that it was to name.
#[derive(Clone, Copy, PartialEq, Eq, Debug)]
pub struct UnknownNumber(pub u8);

/// An operator of an expression that takes two values, by its command byte.
#[derive(Clone, Copy, PartialEq, Eq, Debug)]
pub enum Operator {
    Add = 0x42,
    Subtract = 0x43,
    Multiply = 0x44,
    Lesser = 0x45,
    Greater = 0x46,
    LessThan = 0x47,
    Equal = 0x48,
}

/// An operator that combines two copies of a shared variable, by its number in a declaration.
#[derive(Clone, Copy, PartialEq, Eq, Debug)]
pub enum Combining {
    Sum = 0,
    Least = 1,
    Greatest = 2,
    Left = 3,
}

impl From<Operator> for u8 {
    ghost from_gives = { λ operator byte. byte ≡ operator_byte operator };

    fn from(operator: Operator) -> u8 {
        operator as u8
    }
}

impl TryFrom<u8> for Operator {
    type Error = UnknownNumber;

    ghost try_from_gives = { OperatorOf };

    fn try_from(byte: u8) -> Result<Operator, UnknownNumber> {
        match byte {
            0x42 => Ok(Operator::Add),
            0x43 => Ok(Operator::Subtract),
            0x44 => Ok(Operator::Multiply),
            0x45 => Ok(Operator::Lesser),
            0x46 => Ok(Operator::Greater),
            0x47 => Ok(Operator::LessThan),
            0x48 => Ok(Operator::Equal),
            _ => Err(UnknownNumber(byte)),
        }
    }
}

impl From<Combining> for u8 {
    ghost from_gives = { λ operator number. number ≡ combining_number operator };

    fn from(operator: Combining) -> u8 {
        operator as u8
    }
}

impl TryFrom<u8> for Combining {
    type Error = UnknownNumber;

    ghost try_from_gives = { CombiningOf };

    fn try_from(number: u8) -> Result<Combining, UnknownNumber> {
        match number {
            0 => Ok(Combining::Sum),
            1 => Ok(Combining::Least),
            2 => Ok(Combining::Greatest),
            3 => Ok(Combining::Left),
            _ => Err(UnknownNumber(number)),
        }
    }
}
