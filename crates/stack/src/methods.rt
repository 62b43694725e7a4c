//! Making a stack, and pushing and popping values.
ghost use Rattle.std.specs.Prelude.{◌≡◌, ◌<◌, [], ◌∷◌, length, is_ok, IfSome, if◌then◌else◌, nat_lt, slice_set};
ghost use Rattle.stack.specs.Stacks.{stacked, room, popped_value, popped_rest, SamePlaces};

use crate::Stack;

/// The refusal of a push on a full stack.
#[derive(Clone, Copy, PartialEq, Eq, Debug)]
pub struct Full;

impl<'a, T: Copy> Stack<'a, T> {
    /// An empty stack, with room for a value in each of the places.
    pub fn new(places: &'a mut [T]) -> Self
        ensures empty { stacked result ≡ [] }
        ensures room { room result ≡ length places.old }
        ensures memory { result.places.now ≡ places.old }
        ensures lender { result.places.ghost_name ≡ places.entry.ghost_name }
    {
        Stack { places, depth: 0 }
    }

    /// How many values are stacked.
    pub fn depth(&self) -> usize
        ensures { result ≡ length (stacked self.now) }
    {
        let Stack { depth, .. } = self;
        *depth
    }

    /// One value more, or a refusal that changes nothing.
    pub fn push(&mut self, value: T) -> Result<(), Full>
        ensures answer { is_ok result ≡ nat_lt (length (stacked self.old)) (room self.old) }
        ensures stacked { stacked self.new ≡ (if is_ok result then value ∷ stacked self.old else stacked self.old) }
        ensures memory { self.new.places.now ≡ (if is_ok result then slice_set self.old.places.now self.old.depth value else self.old.places.now) }
        ensures places { SamePlaces self.old self.new }
    {
        if self.depth >= self.places.len() {
            return Err(Full);
        }
        self.places[self.depth] = value;
        self.depth += 1;
        Ok(())
    }

    /// The value that was pushed last, taken off, which leaves room for another; none, and nothing changed, where the stack is empty.
    pub fn pop(&mut self) -> Option<T>
        ensures answer { result ≡ popped_value (stacked self.old) }
        ensures room { IfSome result (λ _. length (stacked self.new) < room self.new) }
        ensures stacked { stacked self.new ≡ popped_rest (stacked self.old) }
        ensures memory { self.new.places.now ≡ self.old.places.now }
        ensures places { SamePlaces self.old self.new }
    {
        let last = self.depth.checked_sub(1)?;
        self.depth = last;
        Some(self.places[last])
    }
}
