//! Fields of challenges, by the coefficients of their elements.

ghost use Rattle.std.specs.Prelude.{◌≡◌, ℕ, List, ◌<◌, get_or, length};
ghost use Rattle.std.specs.List.{flat_map};
ghost use Rattle.ark_bytes.specs.declared.compress.Compress.{Compress};

use ark_extensions::{ExtensionOf, Quadratic, QuadraticModulus};
use ark_prime256::{PrimeField256, PrimeModulus256};
use ark_traits::Field;

/// A field that `F` lies in, or `F` itself, whose elements are so many coefficients of `F`.
pub trait ChallengeOf<F: Field>: ExtensionOf<F> {
    ghost DEGREE: { ℕ };

    // In the order of the bytes.
    ghost coefficients: { Self → List F };

    /// How many coefficients an element has.
    const DEGREE: usize;

    /// The coefficient at a place, in the order in which the bytes have them.
    fn coefficient(&self, index: usize) -> F
        requires { index < DEGREE }
        ensures { (d : F) → result ≡ get_or (coefficients self.now) index d };

    /// The element with these coefficients.
    fn of_coefficients(items: &[F]) -> Self
        requires { length items.now ≡ DEGREE }
        ensures { coefficients result ≡ items.now };

    ghost degree_law: { (x : Self) → length (coefficients x) ≡ DEGREE };

    ghost positive_law: { 0 < DEGREE };

    ghost apart_law: { (x y : Self) → coefficients x ≡ coefficients y → x ≡ y };

    ghost bytes_law: { (x : Self) → (Self.format Compress.Yes).spelling x
        ≡ flat_map (F.format Compress.Yes).spelling (coefficients x) };
}

impl<F: Field, M: QuadraticModulus<F>> ChallengeOf<F> for Quadratic<F, M> {
    ghost use Rattle.std.specs.Prelude.{[], ◌∷◌};
    ghost use Rattle.std.proofs.Common.{refl, lit<};
    ghost use Rattle.ark_word_sums.specs.Coefficients.{two_apart, two_spelled};

    ghost DEGREE = { 2 };

    ghost coefficients = { λ x. x.c0 ∷ x.c1 ∷ [] };

    const DEGREE: usize = 2;

    fn coefficient(&self, index: usize) -> F {
        if index == 0 { self.c0 } else { self.c1 }
    }

    fn of_coefficients(items: &[F]) -> Self {
        Quadratic::new(items[0], items[1])
    }

    ghost degree_law = { λ _. refl };

    ghost positive_law = { lit< tt };

    ghost apart_law = { two_apart };

    ghost bytes_law = { two_spelled (F.format Compress.Yes) };
}

/// The field two below.
impl<F: Field, M: QuadraticModulus<F>, N: QuadraticModulus<Quadratic<F, M>>> ChallengeOf<F>
    for Quadratic<Quadratic<F, M>, N> {
    ghost use Rattle.std.specs.Prelude.{[], ◌∷◌};
    ghost use Rattle.std.proofs.Common.{refl, lit<};
    ghost use Rattle.ark_word_sums.specs.Coefficients.{four_apart, four_spelled};

    ghost DEGREE = { 4 };

    ghost coefficients = { λ x. x.c0.c0 ∷ x.c0.c1 ∷ x.c1.c0 ∷ x.c1.c1 ∷ [] };

    const DEGREE: usize = 4;

    fn coefficient(&self, index: usize) -> F {
        match index {
            0 => self.c0.c0,
            1 => self.c0.c1,
            2 => self.c1.c0,
            _ => self.c1.c1,
        }
    }

    fn of_coefficients(items: &[F]) -> Self {
        Quadratic::new(
            Quadratic::new(items[0], items[1]),
            Quadratic::new(items[2], items[3]),
        )
    }

    ghost degree_law = { λ _. refl };

    ghost positive_law = { lit< tt };

    ghost apart_law = { four_apart };

    ghost bytes_law = { four_spelled (F.format Compress.Yes) };
}

/// A field of four words is large enough to have the challenges itself.
impl<M: PrimeModulus256> ChallengeOf<PrimeField256<M>> for PrimeField256<M> {
    ghost use Rattle.std.specs.Prelude.{[], ◌∷◌};
    ghost use Rattle.std.proofs.Common.{refl, lit<, sym};
    ghost use Rattle.std.proofs.lemmas.List.{append-nil};
    ghost use Rattle.ark_word_sums.specs.Coefficients.{one_apart};

    ghost DEGREE = { 1 };

    ghost coefficients = { λ x. x ∷ [] };

    const DEGREE: usize = 1;

    fn coefficient(&self, _index: usize) -> PrimeField256<M> {
        *self
    }

    fn of_coefficients(items: &[PrimeField256<M>]) -> Self {
        items[0]
    }

    ghost degree_law = { λ _. refl };

    ghost positive_law = { lit< tt };

    ghost apart_law = { one_apart };

    ghost bytes_law = { λ x. sym (append-nil _) };
}
