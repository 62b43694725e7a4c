//! Reads all declarations of a program, and tests the owners that they name.
ghost use Rattle.std.specs.Prelude.{◌≡◌, ◌+◌, ◌*◌, ◌<◌, ◌≤◌, length, drop};
ghost use Rattle.evaluator.specs.Outcomes.{mapped};
ghost use Rattle.rules.specs.Reading.{owners_live};
ghost use Rattle.declarations.specs.Declaring.{variable_of};
ghost use Rattle.declarations.specs.Listing.{listed, first_declaration, declarations_in};

use crate::declaration::Declaration;
use crate::list::Declarations;
use crate::reading::{DECLARATION_BYTES, declaration_in};
use evaluator::rate::MOST_VARIABLES;
use rules::faults::{LoadFault, ReadingFault};
use rules::program::MOST_BYTES;

// The place of a declaration by its number: behind the count and the declarations before it.
fn place_of(number: usize) -> usize
    requires { number < 32 }
    ensures { result ≡ 1 + 16 * number }
{
    1 + DECLARATION_BYTES * number
}

// The declaration at a place of the program.
fn declaration_at(program: &[u8], place: usize) -> Result<Declaration, LoadFault>
    requires { place ≤ length program.now }
    ensures { mapped variable_of result ≡ first_declaration (length program.now) (drop place program.now) }
{
    let cut = LoadFault::CutDeclaration(ReadingFault::Cut(place));
    let bytes = program[place..]
        .first_chunk::<DECLARATION_BYTES>()
        .ok_or(cut)?;
    declaration_in(bytes, place)
}

/// The declarations of a program, or why its length, their count or one of them is refused.
pub fn read_declarations(program: &[u8]) -> Result<Declarations, LoadFault>
    ensures { mapped listed result ≡ declarations_in program.now }
{
    if program.is_empty() || program.len() > MOST_BYTES {
        return Err(LoadFault::BadLength);
    }
    let count = program[0] as usize;
    if count > MOST_VARIABLES {
        return Err(LoadFault::TooManyVariables);
    }
    let mut declarations = Declarations::none();
    // By number and not by chunks of the bytes: the number gives the place, also where the bytes are cut.
    for i in 0..count {
        declarations.push(declaration_at(program, place_of(i))?);
    }
    Ok(declarations)
}

/// The first declaration whose owner is none of the threads is bad.
pub fn owners_live(declarations: &Declarations, threads: usize) -> Result<(), LoadFault>
    ensures { result ≡ owners_live threads 1 (listed declarations.now) }
{
    let dead = declarations
        .as_slice()
        .iter()
        .position(|d| d.owner() as usize >= threads);
    dead.map_or(Ok(()), |i| Err(LoadFault::BadDeclaration(place_of(i))))
}
