//! How long a part of the text takes at most in a tick, and whether it must pause. Lengths stop at the largest u32.
ghost use Rattle.std.specs.Prelude.{◌≡◌};
ghost use Rattle.reader.specs.Extents.{joined as joined_is, either as either_is, looped as looped_is, paired as paired_is, aborted as aborted_is, built as built_is};

use rules::program::Form;

/// The tick length of a part of the text, and whether every way through it pauses. That of nothing is the default.
#[derive(Clone, Copy, Default)]
pub struct Extent {
    pub length: u32,
    pub pauses: bool,
}

impl Extent {
    /// One part and then another.
    pub fn joined(self, next: Extent) -> Extent
        ensures { result ≡ joined_is self next }
    {
        Extent {
            length: self.length.saturating_add(next.length),
            pauses: self.pauses || next.pauses,
        }
    }

    /// An if of two blocks: one step, and the longer of them.
    pub fn either(self, other: Extent) -> Extent
        ensures { result ≡ either_is self other }
    {
        Extent {
            length: 1u32.saturating_add(self.length.max(other.length)),
            pauses: self.pauses && other.pauses,
        }
    }

    /// A loop of a bound over a block: a step for each test, and its passes; a pausing loop has one test and two passes.
    pub fn looped(self, bound: u8) -> Extent
        ensures { result ≡ looped_is bound self }
    {
        let bound = u32::from(bound);
        let length = if bound == 0 {
            1u32.saturating_add(2u32.saturating_mul(self.length))
        } else {
            (bound + 1).saturating_add(bound.saturating_mul(self.length))
        };
        Extent {
            length,
            pauses: false,
        }
    }

    /// A par of two arms: three steps, and both.
    pub fn paired(self, other: Extent) -> Extent
        ensures { result ≡ paired_is self other }
    {
        Extent {
            length: 3u32
                .saturating_add(self.length)
                .saturating_add(other.length),
            pauses: self.pauses || other.pauses,
        }
    }

    /// An abort of a block: one step, and the block.
    pub fn aborted(self) -> Extent
        ensures { result ≡ aborted_is self }
    {
        Extent {
            length: 1u32.saturating_add(self.length),
            pauses: false,
        }
    }

    /// The statement of a form, with its byte and the extents of its blocks as far as it has them.
    pub fn built(form: Form, byte: u8, first: Extent, second: Extent) -> Extent
        ensures { result ≡ built_is form byte first second }
    {
        match form {
            Form::Nothing | Form::Set => Extent {
                length: 1,
                pauses: false,
            },
            Form::Pause => Extent {
                length: 1,
                pauses: true,
            },
            Form::If => first.either(second),
            Form::Loop => first.looped(byte),
            Form::Par => first.paired(second),
            Form::Abort => first.aborted(),
        }
    }
}
