//! Where challenges come from.

ghost use Rattle.std.specs.Prelude.{List, ⊤};

/// Where challenges come from, as from a transcript or a generator. Nothing is promised of them but what an
/// `impl` says by `challenge_gives`: from a state, for a round's values, which challenge may come, and which
/// state after it.
pub trait Challenger<F> {
    ghost challenge_gives: { Self → List F → F → Self → Type 0 } = { λ _ _ _ _. ⊤ };

    /// The challenge after a round with these values.
    fn challenge(&mut self, values: &[F]) -> F
        ensures { challenge_gives self.old values.now result self.new };
}
