//! What polynomials in several variables share.

ghost use Rattle.std.specs.Prelude.{◌≡◌, ◌≢◌, ◌↔◌, ◌≤◌, ℕ, List, length, All, AllPairs};
ghost use Rattle.std.specs.Prelude.{IfOk, IsOkUnless, Vec};
ghost use Rattle.std.specs.declared.alloc.Global.{Global};
ghost use Rattle.std.specs.declared.cmp.Ordering.{Ordering};
ghost use Rattle.ark_math_variables.specs.Term.{IsOnePower, IsWithin};
ghost use Rattle.ark_math_variables.specs.Multivariate.{each_listed, of_listed, of_terms, IsTotalDegree, IsValueAt};
ghost use Rattle.ark_math.specs.Forms.{IsEmbedding, IsShown};
ghost use Rattle.ark_math.specs.Univariate.{coefficient_operations};

use crate::multivariate::Term;
use ark_traits::{Field, PolyError, Polynomial};
use rand::Rng;
use std::alloc::Global;

/// A polynomial in several variables that keeps its terms and a number of variables, all of whose variables
/// are below this number.
///
/// A point fits where it has at least as many items, and then evaluation never fails; every two of them can
/// be added. Two are equal where their terms are, whatever the numbers of variables.
pub trait DenseMVPolynomial<F: Field>: Polynomial<F, Point = Vec<F>> {
    ghost use Rattle.std.proofs.Common.{subst};
    ghost use Rattle.ark_math.proofs.Callers.Forms.{embedding_shows};

    /// The terms.
    type Term: Term;

    // What `terms()` shows: each coefficient with the pairs of its term.
    ghost listed: { Self → List (F × List (ℕ × ℕ)) };

    /// The sum of copies of these terms with their coefficients: in any order, repeated or zero.
    fn from_coefficients_slice(
        alloc: Global,
        num_vars: usize,
        terms: &[(F, Self::Term)],
    ) -> Result<Self, PolyError>
        requires { All (λ c. IsWithin num_vars (Self.Term.listed c.1)) terms.now }
        ensures sum { IfOk result (λ p. of_terms F.field (listed p)
            ≡ of_listed F.field Self.Term.listed terms.now) }
        ensures variables { IfOk result (λ p. Self.variables p ≡ num_vars) }
        ensures memory { IsOkUnless result PolyError.Memory };

    /// The sum of these terms with their coefficients: in any order, repeated or zero.
    fn from_coefficients_vec(
        alloc: Global,
        num_vars: usize,
        terms: Vec<(F, Self::Term)>,
    ) -> Result<Self, PolyError>
        requires { All (λ c. IsWithin num_vars (Self.Term.listed c.1)) terms.items }
        ensures sum { IfOk result (λ p. of_terms F.field (listed p)
            ≡ of_listed F.field Self.Term.listed terms.items) }
        ensures variables { IfOk result (λ p. Self.variables p ≡ num_vars) }
        ensures memory { IsOkUnless result PolyError.Memory };

    /// The terms with their coefficients, none of which is zero, in strictly rising order.
    fn terms(&self) -> &[(F, Self::Term)]
        ensures same { each_listed Self.Term.listed result.now ≡ listed self.now }
        ensures rising { AllPairs (λ c d. Self.Term.cmp c.1 d.1 ≡ Ordering.Less) result.now }
        ensures not_zero { All (λ c. c.0 ≢ F.field.zero) result.now }
        ensures within { All (λ c. IsWithin (Self.variables self.now) c.1) (listed self.now) };

    /// The number of variables.
    fn num_vars(&self) -> usize
        ensures { result ≡ Self.variables self.now };

    /// A constant and, for each variable, the powers from 1 to `d`, with drawn coefficients; those that are
    /// drawn as zero don't stand in it.
    fn rand<R: Rng>(
        alloc: Global,
        d: usize,
        num_vars: usize,
        rng: &mut R,
    ) -> Result<Self, PolyError>
        ensures powers { IfOk result (λ p. All (λ c. IsOnePower d c.1) (listed p)) }
        ensures variables { IfOk result (λ p. Self.variables p ≡ num_vars) }
        ensures memory { IsOkUnless result PolyError.Memory };

    // A polynomial's coefficients by their terms.
    ghost coefficients: { Self.Polynomial.Meaning → List (ℕ × ℕ) → F };

    ghost coefficients_law: { (p : Self) → coefficients (Self.meaning p) ≡ of_terms F.field (listed p) };

    ghost coefficients_embed: { IsEmbedding Self.operations (coefficient_operations F.field) coefficients };

    ghost degree_coefficients: { (a : Self.Polynomial.Meaning) (d : ℕ) → Self.has_degree a d
        ↔ IsTotalDegree F.field (coefficients a) d };

    ghost value_coefficients: { (a : Self.Polynomial.Meaning) (x : Vec F Global) (y : F)
        → Self.has_value a x y ↔ IsValueAt F.field (coefficients a) x.items y };

    ghost fits_law: { (n : ℕ) (x : Vec F Global) → Self.fits n x ↔ (n ≤ length x.items) };

    ghost addable_law: { (a b : Self.Polynomial.Meaning) → Self.addable a b };

    ghost evaluates: { Self.always_evaluates };

    // What calls say of meanings, said of the coefficients.
    ghost by_coefficients: { IsShown Self.operations (coefficient_operations F.field) Self.meaning
        (λ p. of_terms F.field (listed p)) } = { embedding_shows
            coefficients coefficients_embed coefficients_law };

    ghost evaluate_is: { (p : Self) (x : Vec F Global) (y : F) → Self.has_value (Self.meaning p) x y
        → IsValueAt F.field (of_terms F.field (listed p)) x.items y } = { λ p x y h.
            subst (λ a. IsValueAt F.field a x.items y) (coefficients_law p)
            ((value_coefficients (Self.meaning p) x y).0 h) };

    ghost degree_is: { (p : Self) (d : ℕ) → Self.has_degree (Self.meaning p) d
        → IsTotalDegree F.field (of_terms F.field (listed p)) d } = { λ p d h.
            subst (λ a. IsTotalDegree F.field a d) (coefficients_law p)
            ((degree_coefficients (Self.meaning p) d).0 h) };
}
