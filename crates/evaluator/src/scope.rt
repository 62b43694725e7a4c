//! Which variables an expression can read, and where their values lie.
ghost use Rattle.std.specs.Prelude.{◌≡◌, ℕ, cond, Some, None, Option};
ghost use Rattle.evaluator.specs.Scopes.{first_places};

/// The place in the value memory of each variable that can be read.
pub trait Scope {
    ghost places: { Self → ℕ → Option ℕ };

    /// The place of a variable, if it can be read.
    fn place(&self, variable: u8) -> Option<usize>
        ensures { result ≡ places self.now variable };
}

/// Variables 0, 1, .. below a count, each in the place of its own number.
#[derive(Clone, Copy)]
pub struct FirstPlaces {
    pub count: usize,
}

impl Scope for FirstPlaces {
    ghost places = { λ s. first_places s.count };

    fn place(&self, variable: u8) -> Option<usize> {
        let place = variable as usize;
        (place < self.count).then_some(place)
    }
}
