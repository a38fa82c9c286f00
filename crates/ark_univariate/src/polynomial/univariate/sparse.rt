//! Polynomials in one variable by the coefficients that aren't zero.

ghost use Rattle.std.specs.Prelude.{◌≡◌, ◌↔◌, ◌==◌, ◌&&◌, ◌++◌, IfOk, IsOk, IsOkUnless, IsTrue};
ghost use Rattle.std.specs.Prelude.{ℕ, ◌+◌, ◌<◌};
ghost use Rattle.std.specs.Cmp.{and_equiv, and_per, nat_eq_equiv, on_equiv, on_per, partial_equiv_from_equiv};
ghost use Rattle.std.specs.Cmp.{unsigned_Decides};
ghost use Rattle.std.specs.Cmp.Lexicographic.{pointwise, lists_equiv, lists_per};
ghost use Rattle.std.specs.Hash as fed;
ghost use Rattle.std.specs.Hash.{and-Alike, items_Alike, on_Alike, same_Alike};
ghost use Rattle.ark_math.specs.Outcome.{IsOkUnlessEither};
ghost use Rattle.ark_math_polynomials.specs.NormalForms.{gather};
ghost use Rattle.ark_math_domains.specs.Points.{AreValues};
ghost use Rattle.ark_math.specs.Univariate.{IsSparse, IsDegree, IsValue, of_list, of_pairs};
ghost use Rattle.ark_math.specs.Univariate.{coefficient_operations, product, scaled as multiple};

mod bytes;

use crate::domain::EvaluationDomain;
use crate::evaluations::univariate::Evaluations;
use crate::polynomial::univariate::{DensePolynomial, write_term};
use crate::polynomial::{DenseUVPolynomial, Polynomial};
use ark_coeffs::sparse::{
    difference_of_terms, gathered_terms, scaled_terms, sum_of_terms, value_of_terms,
};
use ark_quotients::conversions::terms_of;
use ark_quotients::products::{product_of_terms, reduced_terms};
use ark_traits::{FftField, Field, PolyError};
use std::alloc::{AllocError, Global};
use std::fmt::{self, Debug, Formatter, Write};
use std::hash::{Hash, Hasher};
use std::marker::Model;

/// A polynomial by its terms that aren't zero: pairs of degree and coefficient, by rising degrees.
///
/// Contracts see the list of the pairs.
#[derive(Drop)]
pub struct SparsePolynomial<F: Field> {
    coeffs: Vec<(usize, F)>,
}

impl<F: Field> Model for SparsePolynomial<F> {
    ghost use Rattle.std.specs.Prelude.{ℕ, List};
    ghost use Rattle.ark_math.specs.Univariate.{IsSparse};

    ghost Value = { List (ℕ × F) };

    ghost view = { λ p. p.coeffs.items };

    ghost invariant = { λ p. IsSparse F.field p.coeffs.items };
}

// `==` has laws at every list of pairs, also at those that no polynomial keeps: hence it compares these
// gathered.
impl<F: Field> PartialEq for SparsePolynomial<F> {
    ghost eq = { λ p q.
        pointwise (λ x y. (x.0 == y.0) && F.eq x.1 y.1)
        (gather (λ x. F.eq x F.zero) F.field.plus p)
        (gather (λ x. F.eq x F.zero) F.field.plus q) };

    ghost laws = { on_per (λ p. gather (λ x. F.eq x F.zero) F.field.plus p)
        (lists_per (and_per (on_per (λ t. t.0) (partial_equiv_from_equiv nat_eq_equiv))
        (on_per (λ t. t.1) F.PartialEq.laws))) };

    fn eq(&self, other: &Self) -> bool {
        self.coeffs == other.coeffs
    }
}

impl<F: Field> Eq for SparsePolynomial<F> {
    ghost laws = { on_equiv (λ p. gather (λ x. F.eq x F.zero) F.field.plus p)
        (lists_equiv (and_equiv (on_equiv (λ t. t.0) nat_eq_equiv) (on_equiv (λ t. t.1) F.Eq.laws))) };
}

impl<F: Field> Hash for SparsePolynomial<F> {
    ghost hash_input = { λ p. fed.slice (λ t. fed.usize t.0 ++ F.hash_input t.1)
        (gather (λ x. F.eq x F.zero) F.field.plus p) };

    ghost respects_eq = { (on_Alike (λ p. gather (λ x. F.eq x F.zero) F.field.plus p)
        (items_Alike (and-Alike (on_Alike (λ t. t.0) (same_Alike fed.usize unsigned_Decides))
        (on_Alike (λ t. t.1) (record { fed = F.respects_eq }))))).fed };

    fn hash<H: Hasher>(&self, state: &mut H) {
        self.coeffs.hash(state);
    }
}

impl<F: Field> Clone for SparsePolynomial<F> {
    ghost is_clone = { λ p q. q ≡ p };

    fn clone(&self) -> Result<Self, AllocError> {
        Ok(SparsePolynomial {
            coeffs: self.coeffs.clone()?,
        })
    }
}

impl<F: Field> Debug for SparsePolynomial<F> {
    fn fmt<W: Write>(&self, f: &mut Formatter<W>) -> fmt::Result {
        for i in 0..self.coeffs.len() {
            let (degree, coefficient) = self.coeffs[i];
            write_term(f, degree, &coefficient)?;
        }
        Ok(())
    }
}

impl<F: Field> Polynomial<F> for SparsePolynomial<F> {
    ghost use Rattle.std.specs.Prelude.{ℕ};
    ghost use Rattle.std.proofs.Common.{ap, refl};
    ghost use Rattle.ark_univariate.specs.GatheredLaws.{gather_equality};
    ghost use Rattle.ark_math_polynomials.proofs.Polynomials.UnivariateValues.{univariate_polynomials};
    ghost use Rattle.ark_univariate.specs.LayoutLaws.{sparse_tells};

    type Point = F;

    ghost Meaning = { ℕ → F };

    ghost meaning = { of_pairs F.field };

    ghost has_degree = { IsDegree F.field };

    ghost variables = { λ _. 0 };

    ghost fits = { λ _ _. Unit {0} };

    ghost has_value = { IsValue F.field };

    ghost always_evaluates = { Unit {0} };

    ghost addable = { λ _ _. Unit {0} };

    ghost operations = { coefficient_operations F.field };

    fn degree(&self) -> usize {
        match self.coeffs.last() {
            None => 0,
            Some(term) => term.0,
        }
    }

    fn point_fits(&self, _point: &F) -> bool {
        true
    }

    fn evaluate(&self, _alloc: Global, point: &F) -> Result<F, PolyError>
        ensures value { IfOk result (IsValue F.field (of_pairs F.field self.now) point.now) }
        ensures succeeds { IsOk result }
    {
        Ok(value_of_terms(&self.coeffs, *point))
    }

    fn zero(alloc: Global) -> Result<Self, PolyError> {
        Ok(SparsePolynomial {
            coeffs: Vec::new(alloc),
        })
    }

    fn is_zero(&self) -> bool {
        self.coeffs.is_empty()
    }

    fn addable(&self, _other: &Self) -> bool {
        true
    }

    fn add(&self, alloc: Global, other: &Self) -> Result<Self, PolyError> {
        Ok(SparsePolynomial {
            coeffs: sum_of_terms(alloc, &self.coeffs, F::one(), &other.coeffs)?,
        })
    }

    fn sub(&self, alloc: Global, other: &Self) -> Result<Self, PolyError> {
        Ok(SparsePolynomial {
            coeffs: difference_of_terms(alloc, &self.coeffs, &other.coeffs)?,
        })
    }

    fn neg(&self, alloc: Global) -> Result<Self, PolyError> {
        SparsePolynomial::zero(alloc)?.sub(alloc, self)
    }

    // Sums and differences in place make a list of the terms of both, and then put it in place of the old
    // one.
    fn add_assign(&mut self, alloc: Global, other: &Self) -> Result<(), PolyError> {
        *self = self.add(alloc, other)?;
        Ok(())
    }

    fn sub_assign(&mut self, alloc: Global, other: &Self) -> Result<(), PolyError> {
        *self = self.sub(alloc, other)?;
        Ok(())
    }

    fn add_assign_scaled(
        &mut self,
        alloc: Global,
        factor: F,
        other: &Self,
    ) -> Result<(), PolyError> {
        self.coeffs = sum_of_terms(alloc, &self.coeffs, factor, &other.coeffs)?;
        Ok(())
    }

    ghost equality_law = { gather_equality F.field F.field_laws F.eq F.zero F.equality_law F.zero_law };

    ghost clone_law = { λ a b e. ap (of_pairs F.field) e };

    ghost clone_variables = { λ a b e. refl };

    ghost fits_max = { λ m n x left right. tt };

    ghost polynomial_laws = { univariate_polynomials F.field F.field_laws };

    ghost told = { λ mode p q has other same. ap (of_pairs F.field) (sparse_tells F.field (F.format mode)
        (F.format_law mode) (F.elements_law mode).one_to_one p q has other same) };

    ghost variables_told = { λ mode p q has other same. refl };
}

impl<F: Field> SparsePolynomial<F> {
    /// The sum of these terms, given by degree and coefficient: in any order, repeated or zero.
    pub fn from_coefficients_slice(alloc: Global, coeffs: &[(usize, F)]) -> Result<Self, PolyError>
        ensures sum { IfOk result (λ p. of_pairs F.field p ≡ of_pairs F.field coeffs.now) }
        ensures memory { IsOkUnless result PolyError.Memory }
    {
        Self::from_coefficients_vec(alloc, Vec::from_slice(alloc, coeffs)?)
    }

    /// The sum of these terms, given by degree and coefficient: in any order, repeated or zero.
    pub fn from_coefficients_vec(alloc: Global, coeffs: Vec<(usize, F)>) -> Result<Self, PolyError>
        ensures sum { IfOk result (λ p. of_pairs F.field p ≡ of_pairs F.field coeffs.items) }
        ensures memory { IsOkUnless result PolyError.Memory }
    {
        Ok(SparsePolynomial {
            coeffs: gathered_terms(alloc, coeffs)?,
        })
    }

    /// The terms that aren't zero, by rising degrees.
    pub fn coeffs(&self) -> &[(usize, F)]
        ensures same { result.now ≡ self.now }
        ensures sparse { IsSparse F.field result.now }
    {
        &self.coeffs
    }

    /// The multiple by a factor: zero for the factor zero. Takes memory for as many terms, and a product for
    /// each.
    pub fn mul_scalar(&self, alloc: Global, factor: F) -> Result<Self, PolyError>
        ensures multiple { IfOk result (λ p. of_pairs F.field p
            ≡ multiple F.field factor (of_pairs F.field self.now)) }
        ensures memory { IsOkUnless result PolyError.Memory }
    {
        Ok(SparsePolynomial {
            coeffs: scaled_terms(alloc, factor, &self.coeffs)?,
        })
    }

    /// A law: two are equal by `==` exactly where they denote the same polynomial.
    pub fn equality_law(&self, other: &Self)
        ensures { IsTrue (⟦<SparsePolynomial<F> as PartialEq>⟧.eq self.now other.now)
            ↔ (of_pairs F.field self.now ≡ of_pairs F.field other.now) }
    {}
}

impl<F: Field> SparsePolynomial<F> {
    /// The dense polynomial by its terms that aren't zero. Takes memory for these alone.
    pub fn from_dense(alloc: Global, dense: &DensePolynomial<F>) -> Result<Self, PolyError>
        ensures same { IfOk result (λ p. of_pairs F.field p ≡ of_list F.field dense.now) }
        ensures memory { IsOkUnless result PolyError.Memory }
    {
        Ok(SparsePolynomial {
            coeffs: terms_of(alloc, dense.coeffs())?,
        })
    }

    /// The product. `Overflow` exactly where the sum of the degrees is past `usize::MAX`, judged before
    /// memory is asked for; so never with zero, whose degree is 0.
    ///
    /// It takes a product for each two terms, sorts these products once, and takes memory for them and for
    /// the answer.
    pub fn mul(&self, alloc: Global, other: &Self) -> Result<Self, PolyError>
        ensures product { IfOk result (λ p. of_pairs F.field p
            ≡ product F.field (of_pairs F.field self.now) (of_pairs F.field other.now)) }
        ensures overflow { (result ≡ Err PolyError.Overflow) ↔ (m : ℕ) × (n : ℕ)
            × IsDegree F.field (of_pairs F.field self.now) m
            × IsDegree F.field (of_pairs F.field other.now) n × (usize.MAX < m + n) }
        ensures errors { IsOkUnlessEither result PolyError.Memory PolyError.Overflow }
    {
        Ok(SparsePolynomial {
            coeffs: product_of_terms(alloc, &self.coeffs, &other.coeffs)?,
        })
    }
}

impl<F: FftField> SparsePolynomial<F> {
    /// The values at the elements of the domain, no term cut off: all terms are reduced by the vanishing
    /// polynomial, with a power and a product for each, and then transformed in place. Takes memory for the
    /// values, beside what a transform takes.
    pub fn evaluate_over_domain<D: EvaluationDomain<F>>(
        self,
        alloc: Global,
        domain: D,
    ) -> Result<Evaluations<F, D>, PolyError>
        ensures values { IfOk result (λ v. AreValues F.field (D.domain domain) (of_pairs F.field self)
            v.evals) }
        ensures domain { IfOk result (λ v. v.domain ≡ domain) }
        ensures memory { IsOkUnless result PolyError.Memory }
    {
        self.evaluate_over_domain_by_ref(alloc, domain)
    }

    /// The values at the elements of the domain, found as by `evaluate_over_domain`: the polynomial stays.
    pub fn evaluate_over_domain_by_ref<D: EvaluationDomain<F>>(
        &self,
        alloc: Global,
        domain: D,
    ) -> Result<Evaluations<F, D>, PolyError>
        ensures values { IfOk result (λ v. AreValues F.field (D.domain domain) (of_pairs F.field self.now)
            v.evals) }
        ensures domain { IfOk result (λ v. v.domain ≡ domain) }
        ensures memory { IsOkUnless result PolyError.Memory }
    {
        let n = domain.size();
        let constant = domain.coset_offset_pow_size();
        let mut evals = reduced_terms(alloc, &self.coeffs, n, constant)?;
        domain.fft_in_place(alloc, &mut evals)?;
        Ok(Evaluations::from_vec_and_domain(evals, domain))
    }
}
