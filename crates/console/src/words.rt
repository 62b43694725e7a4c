//! The words of a line, and what hexadecimal and decimal words stand for. A word and its place stay two arguments: a struct of both would be made at each call only to be taken apart in it.
ghost use Rattle.std.specs.Prelude.{◌≡◌, ◌<◌, IfSome, IfOk, vec_items};
ghost use Rattle.console.specs.Decimal.{decimal_in, number_at};
ghost use Rattle.console.specs.Hexadecimal.{digit_value, pair_value, bytes_at, expression_at};
ghost use Rattle.console.specs.Outcomes.{Gives};
ghost use Rattle.console.specs.Splitting.{Words, texts};

use crate::problem::Problem;
use std::alloc::{AllocError, Global};

/// The words of a text, which white space parts.
pub fn words_of(heap: Global, text: &str) -> Result<Vec<&str>, AllocError>
    ensures { IfOk result (λ v. Words text.now (texts v.items)) }
{
    // A loop and no `collect`, so that the contract is tried on each word that is pushed: the check knows what a chain collects only of the chain that its proof names.
    let mut words = Vec::new(heap);
    for word in text.split_whitespace() {
        words.push(word)?;
    }
    Ok(words)
}

/// What a hexadecimal digit stands for, in either case.
pub fn digit_value(character: u8) -> Option<u8>
    ensures value { result ≡ digit_value character }
    ensures bound { IfSome result (λ digit. digit < 16) }
{
    // A capital comes sooner: `to_digit` looks for a small letter last.
    let upper = character.to_ascii_uppercase();
    char::from(upper).to_digit(16).map(|digit| digit as u8)
}

/// The byte of two hexadecimal digits.
pub fn pair_value(high: u8, low: u8) -> Option<u8>
    ensures { result ≡ pair_value (digit_value high) (digit_value low) }
{
    let high = digit_value(high)?;
    let low = digit_value(low)?;
    Some(high * 16 + low)
}

/// The bytes of a hexadecimal word, the one at this place in its line.
pub fn bytes_at(heap: Global, place: usize, word: &str) -> Result<Vec<u8>, Problem>
    ensures { Gives vec_items (bytes_at place word.now) result }
{
    let mut bytes = Vec::new(heap);
    // The pattern takes a pair at a time, and leaves an odd digit over.
    let mut rest = word.as_bytes();
    while let [high, low, after @ ..] = rest {
        let byte = pair_value(*high, *low).ok_or(Problem::NotHexadecimal(place))?;
        bytes.push(byte)?;
        rest = after;
    }
    if rest.is_empty() {
        Ok(bytes)
    } else {
        Err(Problem::NotHexadecimal(place))
    }
}

/// The bytes of an expression: a hexadecimal word, or `-` for none.
pub fn expression_at(heap: Global, place: usize, word: &str) -> Result<Vec<u8>, Problem>
    ensures { Gives vec_items (expression_at place word.now) result }
{
    if word == "-" {
        Ok(Vec::new(heap))
    } else {
        bytes_at(heap, place, word)
    }
}

/// The number of a decimal word, if it is one of signed 32 bits.
pub fn decimal(word: &str) -> Option<i32>
    ensures { result ≡ decimal_in word.now }
{
    word.parse::<i32>().ok()
}

/// The number of a decimal word, the one at this place in its line.
pub fn number_at(place: usize, word: &str) -> Result<i32, Problem>
    ensures { result ≡ number_at place word.now }
{
    decimal(word).ok_or(Problem::NotANumber(place))
}
