//! Polynomials by their coefficients.

ghost use Rattle.std.specs.Prelude.{◌≡◌, ◌↔◌, ℕ, ◌+◌, List, length, IfOk, IfSome, IsNone, IsOkUnless};
ghost use Rattle.ark_math.specs.Outcome.{IsOkUnlessEither};
ghost use Rattle.ark_math.specs.Forms.{IsEmbedding, IsShown};
ghost use Rattle.ark_math.specs.Univariate.{coefficient_operations, of_list};
ghost use Rattle.ark_math.specs.Univariate.{IsTrimmed, IsDegree, IsValue};

pub mod univariate;

pub use ark_traits::Polynomial;
use ark_traits::{Field, PolyError};
use rand::Rng;
use std::alloc::Global;

/// A polynomial in one variable that keeps all its coefficients, the lowest first.
///
/// Every point fits, evaluation never fails, and every two of them can be added.
pub trait DenseUVPolynomial<F: Field>: Polynomial<F, Point = F> {
    ghost use Rattle.std.proofs.Common.{subst};
    ghost use Rattle.ark_math.proofs.Callers.Forms.{embedding_shows};

    // What `coeffs()` shows.
    ghost listed: { Self → List F };

    /// The polynomial with a copy of these coefficients, without zeros at their end.
    fn from_coefficients_slice(alloc: Global, coeffs: &[F]) -> Result<Self, PolyError>
        ensures coefficients { IfOk result (λ p. of_list F.field (listed p) ≡ of_list F.field coeffs.now) }
        ensures trimmed { IfOk result (λ p. IsTrimmed F.field (listed p)) }
        ensures memory { IsOkUnless result PolyError.Memory };

    /// The polynomial with these coefficients, without zeros at their end. Takes no memory.
    fn from_coefficients_vec(coeffs: Vec<F>) -> Self
        ensures coefficients { of_list F.field (listed result) ≡ of_list F.field coeffs.items }
        ensures trimmed { IsTrimmed F.field (listed result) };

    /// The coefficients, the lowest first. The last one isn't zero, so their number less one is the degree;
    /// zero has none.
    fn coeffs(&self) -> &[F]
        ensures same { result.now ≡ listed self.now }
        ensures trimmed { IsTrimmed F.field result.now };

    /// A polynomial of degree `d` with drawn coefficients: the `d` lowest, then at most `tries` draws for a
    /// leading one that isn't zero, and `None` where these are spent. `Overflow` exactly where `d` is
    /// `usize::MAX`, judged first. Takes memory for the coefficients once, before any draw.
    fn rand<R: Rng>(
        alloc: Global,
        d: usize,
        rng: &mut R,
        tries: usize,
    ) -> Result<Option<Self>, PolyError>
        ensures degree { IfOk result (λ drawn. IfSome drawn (λ p.
            IsDegree F.field (of_list F.field (listed p)) d)) }
        ensures len { IfOk result (λ drawn. IfSome drawn (λ p. length (listed p) ≡ d + 1)) }
        ensures spent { tries ≡ 0 → IfOk result (λ drawn. IsNone drawn) }
        ensures overflow { (result ≡ Err PolyError.Overflow) ↔ (d ≡ usize.MAX) }
        ensures errors { IsOkUnlessEither result PolyError.Memory PolyError.Overflow };

    // A polynomial's coefficients by their exponents.
    ghost coefficients: { Self.Polynomial.Meaning → ℕ → F };

    ghost coefficients_law: { (p : Self) → coefficients (Self.meaning p) ≡ of_list F.field (listed p) };

    ghost coefficients_embed: { IsEmbedding Self.operations (coefficient_operations F.field) coefficients };

    ghost degree_coefficients: { (a : Self.Polynomial.Meaning) (d : ℕ) → Self.has_degree a d
        ↔ IsDegree F.field (coefficients a) d };

    ghost value_coefficients: { (a : Self.Polynomial.Meaning) (x y : F) → Self.has_value a x y
        ↔ IsValue F.field (coefficients a) x y };

    ghost fits_law: { (n : ℕ) (x : F) → Self.fits n x };

    ghost addable_law: { (a b : Self.Polynomial.Meaning) → Self.addable a b };

    ghost evaluates: { Self.always_evaluates };

    // What calls say of meanings, said of the coefficients.
    ghost by_coefficients: { IsShown Self.operations (coefficient_operations F.field) Self.meaning
        (λ p. of_list F.field (listed p)) } = { embedding_shows
            coefficients coefficients_embed coefficients_law };

    ghost evaluate_is: { (p : Self) (x y : F) → Self.has_value (Self.meaning p) x y
        → IsValue F.field (of_list F.field (listed p)) x y } = { λ p x y h.
            subst (λ a. IsValue F.field a x y) (coefficients_law p)
            ((value_coefficients (Self.meaning p) x y).0 h) };

    ghost degree_is: { (p : Self) (d : ℕ) → Self.has_degree (Self.meaning p) d
        → IsDegree F.field (of_list F.field (listed p)) d } = { λ p d h.
            subst (λ a. IsDegree F.field a d) (coefficients_law p)
            ((degree_coefficients (Self.meaning p) d).0 h) };
}
