//! A reader of a program's bytes, which does not pass the end of a block.
ghost use Rattle.std.specs.Prelude.{◌≡◌, ◌==◌, ◌<◌, ◌^◌, ◌≤◌, length, IfSome};
ghost use Rattle.evaluator.specs.Outcomes.{mapped};

use rules::faults::LoadFault;

/// Looks at a program's bytes from a place to the end of a block, both counted from byte 0. The place never passes the block's end.
#[derive(Clone, Copy)]
pub struct Reader<'a> {
    program: &'a [u8],
    place: usize,
    end: usize,
    ghost within: { place ≤ end },
    ghost inside: { end ≤ length program.now },
    ghost short: { end < 2 ^ 63 },
}

impl<'a> Reader<'a> {
    ghost use Rattle.reader.specs.Readers.{left_of, end_of, statement_place, end_and_left, from_place, ByteTaken, PartTaken, LengthTaken, EndsBefore};

    /// A reader of the program from a place on; a place past its end is a bad length.
    pub fn new(program: &'a [u8], place: usize) -> Result<Reader<'a>, LoadFault>
        ensures { mapped end_and_left result ≡ from_place place program.now }
    {
        let end = program.len();
        if place > end {
            return Err(LoadFault::BadLength);
        }
        Ok(Reader {
            program,
            place,
            end,
        })
    }

    /// The bytes from the place to the end of the block.
    pub fn left(&self) -> &'a [u8]
        ensures { result.now ≡ left_of self.now }
    {
        &self.program[self.place..self.end]
    }

    /// Whether the place is the block's end.
    pub(crate) fn is_empty(&self) -> bool
        ensures { result ≡ (length (left_of self.now) == 0) }
    {
        self.place == self.end
    }

    /// The place of the statement whose command was just taken.
    pub(crate) fn statement(&self) -> usize
        ensures { result ≡ statement_place self.now }
    {
        self.place.saturating_sub(1)
    }

    /// The next byte, a statement's command or operand, which is passed; none at the end of the block.
    pub(crate) fn byte(&mut self) -> Option<u8>
        ensures answer { ByteTaken (left_of self.old) (left_of self.new) result }
        ensures end { end_of self.new ≡ end_of self.old }
    {
        let [byte, rest @ ..] = self.left() else {
            return None;
        };
        self.place = self.end - rest.len();
        Some(*byte)
    }

    /// A reader of the next so many bytes, which are passed; none where the block has fewer.
    pub(crate) fn part(&mut self, long: usize) -> Option<Reader<'a>>
        ensures answer { PartTaken long (left_of self.old) (left_of self.new) result }
        ensures part_end { IfSome result (λ part. EndsBefore (end_of self.old) (left_of self.new) part) }
        ensures end { end_of self.new ≡ end_of self.old }
    {
        if long > self.end - self.place {
            return None;
        }
        let place = self.place;
        self.place += long;
        Some(Reader {
            program: self.program,
            place,
            end: self.place,
        })
    }

    /// The length of a block in two bytes, the low one first, which are passed; none where the block has fewer.
    pub(crate) fn length(&mut self) -> Option<usize>
        ensures answer { LengthTaken (left_of self.old) (left_of self.new) result }
        ensures end { end_of self.new ≡ end_of self.old }
    {
        let bytes = *self.left().first_chunk()?;
        self.place += 2;
        Some(u16::from_le_bytes(bytes).into())
    }
}
