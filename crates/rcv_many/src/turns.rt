// What takes turns.

ghost use Rattle.std.specs.Prelude.{◌≡◌, ◌↔◌, ◌<◌, ℕ};

/// What a turn came to.
#[derive(Clone, Copy, Debug, PartialEq, Eq)]
pub enum Step {
    /// The turn was made.
    More,
    /// There was nothing left to do.
    Ended,
    /// Memory ran out, in this turn or in an earlier one. The item makes no further turn.
    Stopped,
}

/// Something that is done turn by turn. What its turns need of the caller is a `C`. The caller lends it to each.
///
/// Its meaning is what proofs say of it: whether nothing is left to do (`ended`), whether it has stopped (`stopped`),
/// how many turns are left at most (`left`), and what any number of turns may make of it (`goes`).
pub trait Turns<C> {
    /// Nothing is left to do.
    ghost ended: { Self → Type 0 };

    /// It makes no further turn, because memory ran out.
    ghost stopped: { Self → Type 0 };

    /// How many turns are left at most.
    ghost left: { Self → ℕ };

    /// What turns may make of it.
    ghost goes: { Self → Self → Type 0 };

    /// One turn, with what the caller lends. Ended and stopped items stay as they are, and say so.
    fn turn(&mut self, with: &C) -> Step
        ensures goes { goes self.old self.new }
        ensures fewer { result ≡ Step.More → left self.new < left self.old }
        ensures ended { (result ≡ Step.Ended) ↔ ended self.old }
        ensures ended_stays { ended self.old → self.new ≡ self.old }
        ensures stopped { result ≡ Step.Stopped → stopped self.new }
        ensures stopped_stays { stopped self.old → (result ≡ Step.Stopped) × (self.new ≡ self.old) };

    /// No item has both ended and stopped.
    ghost apart: { (x : Self) → ended x → stopped x → ⊥ };

    /// No turn is some number of turns.
    ghost stays: { (x : Self) → goes x x };

    /// Turns after turns are turns.
    ghost joins: { (x y z : Self) → goes x y → goes y z → goes x z };
}
