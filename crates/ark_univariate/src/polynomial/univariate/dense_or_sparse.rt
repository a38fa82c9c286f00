//! Polynomials in one variable of either form.

ghost use Rattle.std.specs.Prelude.{◌≡◌, ◌≢◌, ◌↔◌, IfOk, IfSome, IsOkUnless, IsTrue, None};
ghost use Rattle.ark_math.specs.Outcome.{IsOkUnlessEither};
ghost use Rattle.ark_math_domains.specs.Points.{AreValues};
ghost use Rattle.ark_math.specs.Univariate.{IsDegree, IsDivision, IsValue, nothing, of_list, of_pairs};
ghost use Rattle.ark_quotients.specs.Divisors.{IsKept, denoted as coefficients_denote};
ghost use Rattle.ark_univariate.specs.DenseOrSparse.{denoted, IsDense};

use crate::domain::EvaluationDomain;
use crate::evaluations::univariate::Evaluations;
use crate::polynomial::univariate::{DensePolynomial, SparsePolynomial};
use crate::polynomial::{DenseUVPolynomial, Polynomial};
use ark_coeffs::dense::value_at;
use ark_coeffs::sparse::value_of_terms;
use ark_quotients::division::{Coefficients, divided};
use ark_traits::{FftField, Field, PolyError};
use std::alloc::{AllocError, Global};
use std::borrow::Cow;

/// A polynomial in sparse or in dense form, its own or a borrowed one.
#[derive(Drop)]
pub enum DenseOrSparsePolynomial<'a, F: Field> {
    /// One in sparse form.
    SPolynomial(Cow<'a, SparsePolynomial<F>>),
    /// One in dense form.
    DPolynomial(Cow<'a, DensePolynomial<F>>),
}

use DenseOrSparsePolynomial::{DPolynomial, SPolynomial};

impl<'a, F: Field> Clone for DenseOrSparsePolynomial<'a, F> {
    ghost is_clone = { λ p q. (denoted F.field q ≡ denoted F.field p) × (IsDense q ↔ IsDense p) };

    // A borrowed one stays borrowed, and takes no memory.
    fn clone(&self) -> Result<Self, AllocError> {
        Ok(match self {
            SPolynomial(p) => SPolynomial(p.clone()?),
            DPolynomial(p) => DPolynomial(p.clone()?),
        })
    }
}

impl<'a, F: Field> From<DensePolynomial<F>> for DenseOrSparsePolynomial<'a, F> {
    ghost from_gives = { λ p q. (denoted F.field q ≡ of_list F.field p) × IsDense q };

    fn from(dense: DensePolynomial<F>) -> Self {
        DPolynomial(Cow::Owned(dense))
    }
}

impl<'a, F: Field> From<&'a DensePolynomial<F>> for DenseOrSparsePolynomial<'a, F> {
    ghost from_gives = { λ p q. (denoted F.field q ≡ of_list F.field p.now) × IsDense q };

    fn from(dense: &'a DensePolynomial<F>) -> Self {
        DPolynomial(Cow::Borrowed(dense))
    }
}

impl<'a, F: Field> From<SparsePolynomial<F>> for DenseOrSparsePolynomial<'a, F> {
    ghost from_gives = { λ p q. (denoted F.field q ≡ of_pairs F.field p) × (IsDense q → ⊥) };

    fn from(sparse: SparsePolynomial<F>) -> Self {
        SPolynomial(Cow::Owned(sparse))
    }
}

impl<'a, F: Field> From<&'a SparsePolynomial<F>> for DenseOrSparsePolynomial<'a, F> {
    ghost from_gives = { λ p q. (denoted F.field q ≡ of_pairs F.field p.now) × (IsDense q → ⊥) };

    fn from(sparse: &'a SparsePolynomial<F>) -> Self {
        SPolynomial(Cow::Borrowed(sparse))
    }
}

impl<'a, F: Field> DenseOrSparsePolynomial<'a, F> {
    /// Whether it is the zero polynomial.
    pub fn is_zero(&self) -> bool
        ensures { IsTrue result ↔ (denoted F.field self.now ≡ nothing F.field) }
    {
        match self {
            SPolynomial(p) => p.is_zero(),
            DPolynomial(p) => p.is_zero(),
        }
    }

    /// The degree; 0 for zero.
    pub fn degree(&self) -> usize
        ensures { IsDegree F.field (denoted F.field self.now) result }
    {
        match self {
            SPolynomial(p) => p.degree(),
            DPolynomial(p) => p.degree(),
        }
    }

    // The coefficients in the form in which the polynomial has them.
    fn coefficients(&self) -> Coefficients<'_, F>
        ensures same { coefficients_denote F.field result ≡ denoted F.field self.now }
        ensures kept { IsKept F.field result }
    {
        match self {
            SPolynomial(p) => Coefficients::Terms(p.coeffs()),
            DPolynomial(p) => Coefficients::Listed(p.coeffs()),
        }
    }

    /// The value at a point, without a change of form. Takes no memory, and is always there: every point
    /// fits.
    pub fn evaluate(&self, point: &F) -> F
        ensures { IsValue F.field (denoted F.field self.now) point.now result }
    {
        match self.coefficients() {
            Coefficients::Terms(terms) => value_of_terms(terms, *point),
            Coefficients::Listed(coeffs) => value_at(coeffs, *point),
        }
    }

    /// The quotient and the remainder by a divisor, of which there is no other pair. A zero dividend gives
    /// two zeros, whatever the divisor; otherwise `None` exactly for a zero divisor, and then `Overflow`
    /// exactly where the dividend's degree is `usize::MAX`, judged before memory is asked for.
    ///
    /// For each coefficient of the quotient there is one pass over the divisor's, on one list of the
    /// dividend's.
    pub fn divide_with_q_and_r(
        &self,
        alloc: Global,
        divisor: &DenseOrSparsePolynomial<'_, F>,
    ) -> Result<Option<(DensePolynomial<F>, DensePolynomial<F>)>, PolyError>
        ensures division { IfOk result (λ o. IfSome o (λ p. IsDivision F.field (denoted F.field self.now)
            (denoted F.field divisor.now) (of_list F.field p.0) (of_list F.field p.1))) }
        ensures none { (result ≡ Ok None) ↔ (denoted F.field self.now ≢ nothing F.field)
            × (denoted F.field divisor.now ≡ nothing F.field) }
        ensures overflow { (result ≡ Err PolyError.Overflow) ↔ (denoted F.field divisor.now ≢ nothing F.field)
            × IsDegree F.field (denoted F.field self.now) usize.MAX }
        ensures errors { IsOkUnlessEither result PolyError.Memory PolyError.Overflow }
    {
        let Some((quotient, remainder)) = divided(
            alloc,
            self.coefficients(),
            divisor.coefficients(),
        )?
        else {
            return Ok(None);
        };
        Ok(Some((
            DensePolynomial::from_coefficients_vec(quotient),
            DensePolynomial::from_coefficients_vec(remainder),
        )))
    }

    /// The polynomial in dense form. `Overflow` exactly where it is held in sparse form and its degree is
    /// `usize::MAX`, judged first. Takes memory for the coefficients, and none for a dense one of its own.
    pub fn into_dense(self, alloc: Global) -> Result<DensePolynomial<F>, PolyError>
        ensures same { IfOk result (λ p. of_list F.field p ≡ denoted F.field self.entry) }
        ensures overflow { (result ≡ Err PolyError.Overflow)
            ↔ (IsDense self.entry → ⊥) × IsDegree F.field (denoted F.field self.entry) usize.MAX }
        ensures errors { IsOkUnlessEither result PolyError.Memory PolyError.Overflow }
    {
        match self {
            SPolynomial(p) => DensePolynomial::from_sparse(alloc, &p),
            DPolynomial(p) => Ok(p.into_owned()?),
        }
    }

    /// The polynomial in sparse form, without a change of form: `NotSparse` exactly where it is held in dense
    /// form, judged first. Takes memory only for a copy of a borrowed one.
    pub fn into_sparse(self, _alloc: Global) -> Result<SparsePolynomial<F>, PolyError>
        ensures same { IfOk result (λ p. of_pairs F.field p ≡ denoted F.field self.entry) }
        ensures not_sparse { (result ≡ Err PolyError.NotSparse) ↔ IsDense self.entry }
        ensures errors { IsOkUnlessEither result PolyError.Memory PolyError.NotSparse }
    {
        match self {
            SPolynomial(p) => Ok(p.into_owned()?),
            DPolynomial(_) => Err(PolyError::NotSparse),
        }
    }
}

impl<'a, F: FftField> DenseOrSparsePolynomial<'a, F> {
    /// The values at the elements of the domain of a polynomial in either form, its own or a borrowed one: no
    /// coefficient is cut off. A dense one of its own is reduced and transformed in place; else there is
    /// memory for the values, and for a copy of a borrowed dense one, beside what a transform takes.
    pub fn evaluate_over_domain<D: EvaluationDomain<F>>(
        self,
        alloc: Global,
        domain: D,
    ) -> Result<Evaluations<F, D>, PolyError>
        ensures values { IfOk result (λ v.
            AreValues F.field (D.domain domain) (denoted F.field self.entry) v.evals) }
        ensures domain { IfOk result (λ v. v.domain ≡ domain) }
        ensures memory { IsOkUnless result PolyError.Memory }
    {
        match self {
            SPolynomial(p) => p.evaluate_over_domain_by_ref(alloc, domain),
            DPolynomial(Cow::Borrowed(p)) => p.evaluate_over_domain_by_ref(alloc, domain),
            DPolynomial(Cow::Owned(p)) => p.evaluate_over_domain(alloc, domain),
        }
    }
}
