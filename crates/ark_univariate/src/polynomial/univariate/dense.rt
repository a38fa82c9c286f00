//! Polynomials in one variable by the list of their coefficients.

ghost use Rattle.std.specs.Prelude.{◌≡◌, ◌≢◌, ◌↔◌, ℕ, ◌+◌, ◌-◌, ◌<◌, ◌≤◌, length, IfOk, IsOk, IfSome, IsNone};
ghost use Rattle.std.specs.Prelude.{IsOkUnless, IsTrue, OnOk, OnErr};
ghost use Rattle.std.specs.Cmp.{on_equiv, on_per};
ghost use Rattle.std.specs.Cmp.Lexicographic.{pointwise, lists_equiv, lists_per};
ghost use Rattle.std.specs.Hash as fed;
ghost use Rattle.std.specs.Hash.{on_Alike, items_Alike};
ghost use Rattle.ark_math.specs.Outcome.{IsOkUnlessEither};
ghost use Rattle.ark_math_polynomials.specs.NormalForms.{trim};
ghost use Rattle.ark_math.specs.Domain.{HasNoSize, IsGeneral};
ghost use Rattle.ark_math_domains.specs.Points.{AreValues, vanishing};
ghost use Rattle.ark_univariate.specs.Domains.{general_domain};
ghost use Rattle.ark_math.specs.Univariate.{IsTrimmed, IsDegree, IsValue, of_list, nothing, added, coefficient_operations};
ghost use Rattle.ark_math.specs.Univariate.{IsBelow, IsDivision, IsQuotient, product, scaled as multiple};
ghost use Rattle.ark_math.specs.Univariate.{difference, of_pairs};

mod bytes;

use crate::domain::{EvaluationDomain, GeneralEvaluationDomain};
use crate::evaluations::univariate::Evaluations;
use crate::polynomial::univariate::{SparsePolynomial, write_term};
use crate::polynomial::{DenseUVPolynomial, Polynomial};
use ark_coeffs::dense::{
    add_each, add_scaled, copy_with_room, divided_by_binomial, extended, grow,
    multiplied_by_binomial, naive_product, reduce_by_binomial, scale_each, subtract_each, trim,
    value_at,
};
use ark_coeffs::draws::drawn;
use ark_quotients::conversions::{Sign, add_terms_trimmed, coefficients_of, sum_with_terms};
use ark_quotients::division::{Coefficients, divided};
use ark_quotients::lanes::{products_of_lanes, side_by_side};
use ark_traits::{FftField, Field, PolyError};
use rand::Rng;
use std::alloc::{AllocError, Global};
use std::fmt::{self, Debug, Formatter, Write};
use std::hash::{Hash, Hasher};
use std::marker::Model;

/// A polynomial by its coefficients, the lowest first; the last one is never zero.
///
/// Contracts see the list of the coefficients.
#[derive(Drop)]
pub struct DensePolynomial<F: Field> {
    coeffs: Vec<F>,
}

impl<F: Field> Model for DensePolynomial<F> {
    ghost use Rattle.std.specs.Prelude.{List};
    ghost use Rattle.ark_math.specs.Univariate.{IsTrimmed};

    ghost Value = { List F };

    ghost view = { λ p. p.coeffs.items };

    ghost invariant = { λ p. IsTrimmed F.field p.coeffs.items };
}

// `==` has laws at every list of coefficients, also at those with zeros at their end, which no polynomial
// keeps: hence it compares what is left without these.
impl<F: Field> PartialEq for DensePolynomial<F> {
    ghost eq = { λ p q. pointwise F.eq (trim (λ x. F.eq x F.zero) p) (trim (λ x. F.eq x F.zero) q) };

    ghost laws = { on_per (λ p. trim (λ x. F.eq x F.zero) p) (lists_per F.PartialEq.laws) };

    fn eq(&self, other: &Self) -> bool {
        self.coeffs == other.coeffs
    }
}

impl<F: Field> Eq for DensePolynomial<F> {
    ghost laws = { on_equiv (λ p. trim (λ x. F.eq x F.zero) p) (lists_equiv F.Eq.laws) };
}

impl<F: Field> Hash for DensePolynomial<F> {
    ghost hash_input = { λ p. fed.slice F.hash_input (trim (λ x. F.eq x F.zero) p) };

    ghost respects_eq = { (on_Alike (λ p. trim (λ x. F.eq x F.zero) p)
        (items_Alike (record { fed = F.respects_eq }))).fed };

    fn hash<H: Hasher>(&self, state: &mut H) {
        self.coeffs.hash(state);
    }
}

impl<F: Field> Clone for DensePolynomial<F> {
    ghost is_clone = { λ p q. q ≡ p };

    fn clone(&self) -> Result<Self, AllocError> {
        Ok(DensePolynomial {
            coeffs: self.coeffs.clone()?,
        })
    }
}

impl<F: Field> Debug for DensePolynomial<F> {
    fn fmt<W: Write>(&self, f: &mut Formatter<W>) -> fmt::Result {
        for i in 0..self.coeffs.len() {
            let coefficient = &self.coeffs[i];
            if !coefficient.is_zero() {
                write_term(f, i, coefficient)?;
            }
        }
        Ok(())
    }
}

impl<F: Field> Polynomial<F> for DensePolynomial<F> {
    ghost use Rattle.std.proofs.Common.{ap, refl};
    ghost use Rattle.ark_math_polynomials.proofs.Polynomials.Trimmed.{trim_equality};
    ghost use Rattle.ark_math_polynomials.proofs.Polynomials.UnivariateValues.{univariate_polynomials};
    ghost use Rattle.ark_univariate.specs.LayoutLaws.{dense_tells};

    type Point = F;

    ghost Meaning = { ℕ → F };

    ghost meaning = { of_list F.field };

    ghost has_degree = { IsDegree F.field };

    ghost variables = { λ _. 0 };

    ghost fits = { λ _ _. Unit {0} };

    ghost has_value = { IsValue F.field };

    ghost always_evaluates = { Unit {0} };

    ghost addable = { λ _ _. Unit {0} };

    ghost operations = { coefficient_operations F.field };

    fn degree(&self) -> usize {
        self.coeffs.len().saturating_sub(1)
    }

    fn point_fits(&self, _point: &F) -> bool {
        true
    }

    fn evaluate(&self, _alloc: Global, point: &F) -> Result<F, PolyError>
        ensures value { IfOk result (IsValue F.field (of_list F.field self.now) point.now) }
        ensures succeeds { IsOk result }
    {
        Ok(value_at(&self.coeffs, *point))
    }

    fn zero(alloc: Global) -> Result<Self, PolyError> {
        Ok(DensePolynomial {
            coeffs: Vec::new(alloc),
        })
    }

    fn is_zero(&self) -> bool {
        self.coeffs.is_empty()
    }

    fn addable(&self, _other: &Self) -> bool {
        true
    }

    fn add(&self, alloc: Global, other: &Self) -> Result<Self, PolyError> {
        let len = self.coeffs.len().max(other.coeffs.len());
        let mut coeffs = extended(alloc, &self.coeffs, len)?;
        add_each(coeffs.as_mut_slice(), &other.coeffs);
        Ok(DensePolynomial::from_coefficients_vec(coeffs))
    }

    fn sub(&self, alloc: Global, other: &Self) -> Result<Self, PolyError> {
        let len = self.coeffs.len().max(other.coeffs.len());
        let mut coeffs = extended(alloc, &self.coeffs, len)?;
        subtract_each(coeffs.as_mut_slice(), &other.coeffs);
        Ok(DensePolynomial::from_coefficients_vec(coeffs))
    }

    fn neg(&self, alloc: Global) -> Result<Self, PolyError> {
        DensePolynomial::from_coefficients_vec(Vec::new(alloc)).sub(alloc, self)
    }

    // Sums and differences in place take memory only where the other polynomial is longer, and no copy.
    fn add_assign(&mut self, _alloc: Global, other: &Self) -> Result<(), PolyError> {
        grow(&mut self.coeffs, other.coeffs.len())?;
        add_each(self.coeffs.as_mut_slice(), &other.coeffs);
        trim(&mut self.coeffs);
        Ok(())
    }

    fn sub_assign(&mut self, _alloc: Global, other: &Self) -> Result<(), PolyError> {
        grow(&mut self.coeffs, other.coeffs.len())?;
        subtract_each(self.coeffs.as_mut_slice(), &other.coeffs);
        trim(&mut self.coeffs);
        Ok(())
    }

    fn add_assign_scaled(
        &mut self,
        _alloc: Global,
        factor: F,
        other: &Self,
    ) -> Result<(), PolyError> {
        grow(&mut self.coeffs, other.coeffs.len())?;
        add_scaled(self.coeffs.as_mut_slice(), factor, &other.coeffs);
        trim(&mut self.coeffs);
        Ok(())
    }

    ghost equality_law = { trim_equality F.field F.eq F.zero F.equality_law F.zero_law };

    ghost clone_law = { λ a b e. ap (of_list F.field) e };

    ghost clone_variables = { λ a b e. refl };

    ghost fits_max = { λ m n x left right. tt };

    ghost polynomial_laws = { univariate_polynomials F.field F.field_laws };

    ghost told = { λ mode p q has other same. ap (of_list F.field) (dense_tells F.field (F.format mode)
        (F.format_law mode) (F.elements_law mode).one_to_one p q has other same) };

    ghost variables_told = { λ mode p q has other same. refl };
}

impl<F: Field> DenseUVPolynomial<F> for DensePolynomial<F> {
    ghost use Rattle.std.proofs.Common.{refl};
    ghost use Rattle.ark_math.proofs.Algebra.Groups.{identity_embeds};

    ghost listed = { λ p. p };

    fn from_coefficients_slice(alloc: Global, coeffs: &[F]) -> Result<Self, PolyError> {
        Ok(Self::from_coefficients_vec(Vec::from_slice(alloc, coeffs)?))
    }

    fn from_coefficients_vec(coeffs: Vec<F>) -> Self
        ensures coefficients { of_list F.field result ≡ of_list F.field coeffs.items }
        ensures trimmed { IsTrimmed F.field result }
    {
        let mut coeffs = coeffs;
        trim(&mut coeffs);
        DensePolynomial { coeffs }
    }

    fn coeffs(&self) -> &[F]
        ensures same { result.now ≡ self.now }
        ensures trimmed { IsTrimmed F.field result.now }
    {
        &self.coeffs
    }

    fn rand<R: Rng>(
        alloc: Global,
        d: usize,
        rng: &mut R,
        tries: usize,
    ) -> Result<Option<Self>, PolyError> {
        if d == usize::MAX {
            return Err(PolyError::Overflow);
        }
        let Some(coeffs) = drawn(alloc, d, rng, tries)? else {
            return Ok(None);
        };
        Ok(Some(DensePolynomial { coeffs }))
    }

    ghost coefficients = { λ a. a };

    ghost coefficients_law = { λ p. refl };

    ghost coefficients_embed = { identity_embeds (coefficient_operations F.field) };

    ghost degree_coefficients = { λ a d. ((λ h. h), (λ h. h)) };

    ghost value_coefficients = { λ a x y. ((λ h. h), (λ h. h)) };

    ghost fits_law = { λ p x. tt };

    ghost addable_law = { λ a b. tt };

    ghost evaluates = { tt };
}

impl<F: Field> DensePolynomial<F> {
    /// The multiple by a factor: zero for the factor zero. Takes memory for a copy of the coefficients, and a
    /// product for each.
    pub fn mul_scalar(&self, alloc: Global, factor: F) -> Result<Self, PolyError>
        ensures multiple { IfOk result (λ p. of_list F.field p
            ≡ multiple F.field factor (of_list F.field self.now)) }
        ensures memory { IsOkUnless result PolyError.Memory }
    {
        let mut coeffs = Vec::from_slice(alloc, &self.coeffs)?;
        scale_each(coeffs.as_mut_slice(), factor);
        Ok(Self::from_coefficients_vec(coeffs))
    }

    /// A law: two are equal by `==` exactly where they denote the same polynomial.
    pub fn equality_law(&self, other: &Self)
        ensures { IsTrue (⟦<DensePolynomial<F> as PartialEq>⟧.eq self.now other.now)
            ↔ (of_list F.field self.now ≡ of_list F.field other.now) }
    {}

    /// The product, by all products of two coefficients. `Overflow` exactly where neither factor is zero and
    /// the product's length is past `usize::MAX`: never in practice, since two lists whose items take a byte
    /// or more can't be so long.
    pub fn naive_mul(&self, alloc: Global, other: &Self) -> Result<Self, PolyError>
        ensures product { IfOk result (λ p. of_list F.field p
            ≡ product F.field (of_list F.field self.now) (of_list F.field other.now)) }
        ensures overflow { (result ≡ Err PolyError.Overflow) ↔ (0 < length self.now) × (0 < length other.now)
            × (usize.MAX < length self.now + length other.now - 1) }
        ensures errors { IsOkUnlessEither result PolyError.Memory PolyError.Overflow }
    {
        let coeffs = naive_product(alloc, &self.coeffs, &other.coeffs)?;
        Ok(Self::from_coefficients_vec(coeffs))
    }
}

impl<F: Field> DensePolynomial<F> {
    /// The sparse polynomial by all its coefficients. `Overflow` exactly where its degree is `usize::MAX`,
    /// judged first. Takes memory for the coefficients up to the degree.
    pub fn from_sparse(alloc: Global, sparse: &SparsePolynomial<F>) -> Result<Self, PolyError>
        ensures same { IfOk result (λ p. of_list F.field p ≡ of_pairs F.field sparse.now) }
        ensures overflow { (result ≡ Err PolyError.Overflow)
            ↔ IsDegree F.field (of_pairs F.field sparse.now) usize.MAX }
        ensures errors { IsOkUnlessEither result PolyError.Memory PolyError.Overflow }
    {
        let coeffs = coefficients_of(alloc, sparse.coeffs())?;
        Ok(DensePolynomial { coeffs })
    }

    /// The sum with a sparse polynomial. `Overflow` exactly where that one's degree is `usize::MAX`, judged
    /// first. Takes memory for the answer alone, and a sum of two coefficients for each term.
    pub fn add_sparse(&self, alloc: Global, other: &SparsePolynomial<F>) -> Result<Self, PolyError>
        ensures sum { IfOk result (λ p. of_list F.field p
            ≡ added F.field (of_list F.field self.now) (of_pairs F.field other.now)) }
        ensures overflow { (result ≡ Err PolyError.Overflow)
            ↔ IsDegree F.field (of_pairs F.field other.now) usize.MAX }
        ensures errors { IsOkUnlessEither result PolyError.Memory PolyError.Overflow }
    {
        let sum = sum_with_terms(alloc, &self.coeffs, Sign::Plus, other.coeffs())?;
        Ok(Self::from_coefficients_vec(sum))
    }

    /// The difference with a sparse polynomial. `Overflow` exactly where that one's degree is `usize::MAX`,
    /// judged first. Takes memory for the answer alone, and a difference of two coefficients for each term.
    pub fn sub_sparse(&self, alloc: Global, other: &SparsePolynomial<F>) -> Result<Self, PolyError>
        ensures difference { IfOk result (λ p. of_list F.field p
            ≡ difference F.field (of_list F.field self.now) (of_pairs F.field other.now)) }
        ensures overflow { (result ≡ Err PolyError.Overflow)
            ↔ IsDegree F.field (of_pairs F.field other.now) usize.MAX }
        ensures errors { IsOkUnlessEither result PolyError.Memory PolyError.Overflow }
    {
        let difference = sum_with_terms(alloc, &self.coeffs, Sign::Minus, other.coeffs())?;
        Ok(Self::from_coefficients_vec(difference))
    }

    /// Adds a sparse polynomial in place. `Overflow` exactly where that one's degree is `usize::MAX`, judged
    /// first. After an error it has the value that it had. Takes memory only where the other one's degree is
    /// higher.
    pub fn add_assign_sparse(
        &mut self,
        _alloc: Global,
        other: &SparsePolynomial<F>,
    ) -> Result<(), PolyError>
        ensures sum { OnOk result (of_list F.field self.new
            ≡ added F.field (of_list F.field self.old) (of_pairs F.field other.now)) }
        ensures kept { OnErr result (self.new ≡ self.old) }
        ensures overflow { (result ≡ Err PolyError.Overflow)
            ↔ IsDegree F.field (of_pairs F.field other.now) usize.MAX }
        ensures errors { IsOkUnlessEither result PolyError.Memory PolyError.Overflow }
    {
        add_terms_trimmed(&mut self.coeffs, Sign::Plus, other.coeffs())
    }

    /// Subtracts a sparse polynomial in place. `Overflow` exactly where that one's degree is `usize::MAX`,
    /// judged first. After an error it has the value that it had. Takes memory only where the other one's
    /// degree is higher.
    pub fn sub_assign_sparse(
        &mut self,
        _alloc: Global,
        other: &SparsePolynomial<F>,
    ) -> Result<(), PolyError>
        ensures difference { OnOk result (of_list F.field self.new
            ≡ difference F.field (of_list F.field self.old) (of_pairs F.field other.now)) }
        ensures kept { OnErr result (self.new ≡ self.old) }
        ensures overflow { (result ≡ Err PolyError.Overflow)
            ↔ IsDegree F.field (of_pairs F.field other.now) usize.MAX }
        ensures errors { IsOkUnlessEither result PolyError.Memory PolyError.Overflow }
    {
        add_terms_trimmed(&mut self.coeffs, Sign::Minus, other.coeffs())
    }

    /// The only quotient, without the remainder. Zero divided by anything is zero; otherwise `ZeroDivisor`
    /// exactly for a zero divisor, judged before memory is asked for.
    ///
    /// For each coefficient of the quotient there is one pass over the divisor's, on one copy of this
    /// polynomial's.
    pub fn div(&self, alloc: Global, divisor: &Self) -> Result<Self, PolyError>
        ensures division { IfOk result (λ q. (r : ℕ → F) × IsDivision F.field (of_list F.field self.now)
            (of_list F.field divisor.now) (of_list F.field q) r) }
        ensures zero_divisor { (result ≡ Err PolyError.ZeroDivisor)
            ↔ (of_list F.field self.now ≢ nothing F.field) × (of_list F.field divisor.now ≡ nothing F.field) }
        ensures errors { IsOkUnlessEither result PolyError.Memory PolyError.ZeroDivisor }
    {
        let dividend = Coefficients::Listed(&self.coeffs);
        let Some((quotient, _)) = divided(alloc, dividend, Coefficients::Listed(&divisor.coeffs))?
        else {
            return Err(PolyError::ZeroDivisor);
        };
        Ok(Self::from_coefficients_vec(quotient))
    }
}

impl<F: FftField> DensePolynomial<F> {
    /// The product, by transforms over the general domain for its length. With zero it is zero without a
    /// domain. `NoDomain` exactly where neither factor is zero and the field has no domain for that length,
    /// judged before memory is asked for.
    ///
    /// Both factors are transformed side by side, as one list. Over `n` elements it takes three transforms
    /// and `n` products more, and memory for `n` values of each factor and of the product beside what a
    /// transform takes.
    pub fn mul(&self, alloc: Global, other: &Self) -> Result<Self, PolyError>
        ensures product { IfOk result (λ p. of_list F.field p
            ≡ product F.field (of_list F.field self.now) (of_list F.field other.now)) }
        ensures none { (result ≡ Err PolyError.NoDomain) ↔ (0 < length self.now) × (0 < length other.now)
            × HasNoSize (IsGeneral F.adicity) (length self.now + length other.now - 1) }
        ensures errors { IsOkUnlessEither result PolyError.Memory PolyError.NoDomain }
    {
        if self.coeffs.is_empty() || other.coeffs.is_empty() {
            return Self::zero(alloc);
        }
        let Some(domain) = domain_of_product(self.coeffs.len(), other.coeffs.len()) else {
            return Err(PolyError::NoDomain);
        };
        self.product_through(alloc, other, domain)
    }

    // The product, by the values of both factors over a domain that has as many elements as the product
    // coefficients.
    fn product_through<D: EvaluationDomain<F>>(
        &self,
        alloc: Global,
        other: &Self,
        domain: D,
    ) -> Result<Self, PolyError>
        requires nonempty { 0 < length self.now }
        requires other_nonempty { 0 < length other.now }
        requires room { length self.now + length other.now - 1 ≤ (D.domain domain).size }
        ensures product { IfOk result (λ p. of_list F.field p
            ≡ product F.field (of_list F.field self.now) (of_list F.field other.now)) }
        ensures memory { IsOkUnless result PolyError.Memory }
    {
        let mut lanes = side_by_side(alloc, &self.coeffs, &other.coeffs, domain.size())?;
        domain.fft_in_place(alloc, &mut lanes)?;
        let values = products_of_lanes(alloc, &lanes)?;
        Evaluations::from_vec_and_domain(values, domain).interpolate(alloc)
    }

    /// The only polynomial below the domain's size with the products of both values at the elements: the
    /// remainder of the product by the vanishing polynomial, and the product itself where that is below the
    /// size.
    ///
    /// It takes a transform for each factor and one back, a product for each element, and memory for the
    /// values of both factors beside what a transform takes.
    pub fn mul_over_domain<D: EvaluationDomain<F>>(
        &self,
        alloc: Global,
        other: &Self,
        domain: D,
    ) -> Result<Self, PolyError>
        ensures remainder { IfOk result (λ p. (q : ℕ → F) × IsQuotient F.field
            (product F.field (of_list F.field self.now) (of_list F.field other.now))
            (vanishing F.field (D.domain domain)) q (of_list F.field p)) }
        ensures below { IfOk result (λ p. IsBelow F.field (D.domain domain).size (of_list F.field p)) }
        ensures only { IfOk result (λ p. (q r : ℕ → F) → IsQuotient F.field
            (product F.field (of_list F.field self.now) (of_list F.field other.now))
            (vanishing F.field (D.domain domain)) q r → r ≡ of_list F.field p) }
        ensures product { IfOk result (λ p. IsBelow F.field (D.domain domain).size
            (product F.field (of_list F.field self.now) (of_list F.field other.now))
            → of_list F.field p ≡ product F.field (of_list F.field self.now) (of_list F.field other.now)) }
        ensures memory { IsOkUnless result PolyError.Memory }
    {
        let mut values = self.evaluate_over_domain_by_ref(alloc, domain)?;
        values.mul_assign(&other.evaluate_over_domain_by_ref(alloc, domain)?);
        values.interpolate(alloc)
    }

    /// The values at the elements of the domain, no coefficient cut off: all coefficients are reduced by the
    /// vanishing polynomial, in one pass with a product for each coefficient from the domain's size on, and
    /// then transformed in place.
    pub fn evaluate_over_domain<D: EvaluationDomain<F>>(
        self,
        alloc: Global,
        domain: D,
    ) -> Result<Evaluations<F, D>, PolyError>
        ensures values { IfOk result (λ v. AreValues F.field (D.domain domain) (of_list F.field self)
            v.evals) }
        ensures domain { IfOk result (λ v. v.domain ≡ domain) }
        ensures memory { IsOkUnless result PolyError.Memory }
    {
        let n = domain.size();
        let mut evals = self.coeffs;
        reduce_by_binomial(&mut evals, n, domain.coset_offset_pow_size());
        domain.fft_in_place(alloc, &mut evals)?;
        Ok(Evaluations::from_vec_and_domain(evals, domain))
    }

    /// The values at the elements of the domain, by a copy of the coefficients: the polynomial stays.
    pub fn evaluate_over_domain_by_ref<D: EvaluationDomain<F>>(
        &self,
        alloc: Global,
        domain: D,
    ) -> Result<Evaluations<F, D>, PolyError>
        ensures values { IfOk result (λ v. AreValues F.field (D.domain domain) (of_list F.field self.now)
            v.evals) }
        ensures domain { IfOk result (λ v. v.domain ≡ domain) }
        ensures memory { IsOkUnless result PolyError.Memory }
    {
        let coeffs = copy_with_room(alloc, &self.coeffs, domain.size())?;
        DensePolynomial { coeffs }.evaluate_over_domain(alloc, domain)
    }

    /// The product with the domain's own vanishing polynomial, `x^n - h^n` for the size `n` and the offset
    /// `h`; zero gives zero. `Overflow` exactly where the polynomial isn't zero and the product's length is
    /// past `usize::MAX`, judged before memory is asked for.
    ///
    /// It takes one product for each coefficient, and memory for the answer alone.
    pub fn mul_by_vanishing_poly<D: EvaluationDomain<F>>(
        &self,
        alloc: Global,
        domain: D,
    ) -> Result<Self, PolyError>
        ensures product { IfOk result (λ p. of_list F.field p
            ≡ product F.field (of_list F.field self.now) (vanishing F.field (D.domain domain))) }
        ensures overflow { (result ≡ Err PolyError.Overflow) ↔ (0 < length self.now)
            × (usize.MAX < length self.now + (D.domain domain).size) }
        ensures errors { IsOkUnlessEither result PolyError.Memory PolyError.Overflow }
    {
        if self.coeffs.is_empty() {
            return Self::zero(alloc);
        }
        let n = domain.size();
        if n > usize::MAX - self.coeffs.len() {
            return Err(PolyError::Overflow);
        }
        let constant = domain.coset_offset_pow_size();
        let coeffs = multiplied_by_binomial(alloc, &self.coeffs, n, constant)?;
        Ok(Self::from_coefficients_vec(coeffs))
    }

    /// The quotient and the remainder by the domain's own vanishing polynomial, `x^n - h^n` for the size `n`
    /// and the offset `h`. There is no other such pair.
    ///
    /// It takes one product for each coefficient from `n` on, and memory for the quotient and for a copy of
    /// the coefficients, which becomes the remainder.
    pub fn divide_by_vanishing_poly<D: EvaluationDomain<F>>(
        &self,
        alloc: Global,
        domain: D,
    ) -> Result<(Self, Self), PolyError>
        ensures division { IfOk result (λ p. of_list F.field self.now ≡ added F.field
            (product F.field (of_list F.field p.0) (vanishing F.field (D.domain domain)))
            (of_list F.field p.1)) }
        ensures below { IfOk result (λ p. IsBelow F.field (D.domain domain).size (of_list F.field p.1)) }
        ensures only { IfOk result (λ p. (q r : ℕ → F) → IsQuotient F.field (of_list F.field self.now)
            (vanishing F.field (D.domain domain)) q r
            → (q ≡ of_list F.field p.0) × (r ≡ of_list F.field p.1)) }
        ensures memory { IsOkUnless result PolyError.Memory }
    {
        let n = domain.size();
        let constant = domain.coset_offset_pow_size();
        let (quotient, remainder) = divided_by_binomial(alloc, &self.coeffs, n, constant)?;
        Ok((
            Self::from_coefficients_vec(quotient),
            Self::from_coefficients_vec(remainder),
        ))
    }
}

// The general domain for a product of two lists of these lengths. A length past `usize::MAX` has none.
fn domain_of_product<F: FftField>(left: usize, right: usize) -> Option<GeneralEvaluationDomain<F>>
    requires { 0 < right }
    ensures room { IfSome result (λ d. left + right - 1 ≤ (general_domain d).size) }
    ensures none { IsNone result ↔ HasNoSize (IsGeneral F.adicity) (left + right - 1) }
{
    GeneralEvaluationDomain::new(left.checked_add(right - 1)?)
}
