//! Laws of polynomials in one variable, in their forms and over domains.

ghost use Rattle.std.specs.Prelude.{◌≡◌, ◌≢◌, ◌↔◌, ◌⊎◌, ℕ, ◌+◌, List, IsTrue, IfOk, IfErr, IfSome};
ghost use Rattle.std.specs.Prelude.{IsOk, IsOkUnless, IsSome};
ghost use Rattle.ark_math.specs.Field.{minus};
ghost use Rattle.ark_math_polynomials.specs.Linear.{constant, linear_factor};
ghost use Rattle.ark_math.specs.Module.{itself, sum_below};
ghost use Rattle.ark_math.specs.Outcome.{IsOkUnlessEither};
ghost use Rattle.ark_math_domains.specs.Points.{AreValues, AreWeights};
ghost use Rattle.ark_math.specs.Univariate.{IsBelow, IsDegree, IsDivision, IsQuotient, IsSparse};
ghost use Rattle.ark_math.specs.Univariate.{IsTrimmed, IsValue};
ghost use Rattle.ark_math.specs.Univariate.{added, nothing, of_list, of_pairs, product};
ghost use Rattle.ark_univariate.specs.DenseOrSparse.{denoted};

use ark_coeffs::dense::sum_of_products;
use ark_traits::{FftField, Field, PolyError, Polynomial, Zero};
use ark_univariate::univariate::{DenseOrSparsePolynomial, DensePolynomial, SparsePolynomial};
use ark_univariate::{DenseUVPolynomial, EvaluationDomain, Evaluations};
use std::alloc::Global;

/// A law: of every dense polynomial the list is trimmed, as its type promises; so no other list of one
/// denotes the same.
pub fn always_trimmed<F: Field>(polynomial: &DensePolynomial<F>)
    ensures { IsTrimmed F.field polynomial.now }
{
    polynomial.coeffs();
}

/// A law: of every sparse polynomial the degrees rise and no coefficient is zero, as its type promises; so no
/// other list of one denotes the same.
pub fn always_sparse<F: Field>(polynomial: &SparsePolynomial<F>)
    ensures { IsSparse F.field polynomial.now }
{
    polynomial.coeffs();
}

/// A law: the value of x - z at a point is the point less z.
pub fn value_of_linear_factor<F: Field>(root: F, point: F)
    ensures { IsValue F.field (linear_factor F.field root) point (minus F.field point root) }
{}

/// The product by `mul` and the one by `naive_mul`: they have the same coefficients, and are equal by `==`.
/// An error is that of one of them.
///
/// It takes as long as both.
pub fn both_products<F: FftField>(
    alloc: Global,
    left: &DensePolynomial<F>,
    right: &DensePolynomial<F>,
) -> Result<(DensePolynomial<F>, DensePolynomial<F>), PolyError>
    ensures product { IfOk result (λ p. of_list F.field p.0
        ≡ product F.field (of_list F.field left.now) (of_list F.field right.now)) }
    ensures same { IfOk result (λ p. p.0 ≡ p.1) }
    ensures equal { IfOk result (λ p. IsTrue (⟦<DensePolynomial<F> as PartialEq>⟧.eq p.0 p.1)) }
    ensures errors { IfErr result (λ e. (e ≡ PolyError.Memory) ⊎ (e ≡ PolyError.NoDomain)
        ⊎ (e ≡ PolyError.Overflow)) }
{
    let fast = left.mul(alloc, right)?;
    let naive = left.naive_mul(alloc, right)?;
    // Both are trimmed, and so no other list denotes them.
    fast.coeffs();
    naive.coeffs();
    Ok((fast, naive))
}

/// The degree of the product of two polynomials, neither of them zero: the sum of their degrees.
///
/// It takes as long as `mul`.
pub fn degree_of_product<F: FftField>(
    alloc: Global,
    left: &DensePolynomial<F>,
    right: &DensePolynomial<F>,
) -> Result<usize, PolyError>
    requires left { of_list F.field left.now ≢ nothing F.field }
    requires right { of_list F.field right.now ≢ nothing F.field }
    ensures sum { IfOk result (λ d. (m n : ℕ) → IsDegree F.field (of_list F.field left.now) m
        → IsDegree F.field (of_list F.field right.now) n → d ≡ m + n) }
    ensures errors { IsOkUnlessEither result PolyError.Memory PolyError.NoDomain }
{
    let product = left.mul(alloc, right)?;
    Ok(product.degree())
}

/// The sum of the values times the weights at `tau`: the value at `tau` of the polynomial that `interpolate`
/// gives.
///
/// It takes a product for each value beside the weights.
pub fn weighted_sum<F: FftField, D: EvaluationDomain<F>>(
    alloc: Global,
    values: &Evaluations<F, D>,
    tau: F,
) -> Result<F, PolyError>
    ensures sum { IfOk result (λ y. (l : List F) → AreWeights F.field (D.domain values.now.domain) tau l
        → y ≡ sum_below (itself F.field) (D.domain values.now.domain).size
        (λ i. F.field.times (of_list F.field l i) (of_list F.field values.now.evals i))) }
    ensures value { IfOk result (λ y. (a : ℕ → F) → IsBelow F.field (D.domain values.now.domain).size a
        → AreValues F.field (D.domain values.now.domain) a values.now.evals → IsValue F.field a tau y) }
    ensures memory { IsOkUnless result PolyError.Memory }
{
    let weights = values
        .domain()
        .evaluate_all_lagrange_coefficients(alloc, tau)?;
    Ok(sum_of_products(&weights, values.evals()))
}

/// A sparse polynomial made dense and sparse again: the same value. `Overflow` exactly where its degree is
/// `usize::MAX`.
///
/// It takes memory for the coefficients up to the degree.
pub fn dense_and_back<F: Field>(
    alloc: Global,
    sparse: &SparsePolynomial<F>,
) -> Result<SparsePolynomial<F>, PolyError>
    ensures same { IfOk result (λ p. p ≡ sparse.now) }
    ensures overflow { (result ≡ Err PolyError.Overflow)
        ↔ IsDegree F.field (of_pairs F.field sparse.now) usize.MAX }
    ensures errors { IsOkUnlessEither result PolyError.Memory PolyError.Overflow }
{
    let dense = DensePolynomial::from_sparse(alloc, sparse)?;
    let back = SparsePolynomial::from_dense(alloc, &dense)?;
    // Both are sparse, and so no other list denotes them.
    sparse.coeffs();
    back.coeffs();
    Ok(back)
}

/// A dense polynomial made sparse and dense again: the same value.
///
/// It takes memory for the terms and for the coefficients.
pub fn sparse_and_back<F: Field>(
    alloc: Global,
    dense: &DensePolynomial<F>,
) -> Result<DensePolynomial<F>, PolyError>
    ensures same { IfOk result (λ p. p ≡ dense.now) }
    ensures memory { IsOkUnless result PolyError.Memory }
{
    // Both are trimmed, and so no other list denotes them.
    dense.coeffs();
    let sparse = SparsePolynomial::from_dense(alloc, dense)?;
    let back = DensePolynomial::from_sparse(alloc, &sparse)?;
    back.coeffs();
    Ok(back)
}

/// The values at a point of one polynomial in dense and in sparse form: they are equal. Takes no memory, and
/// is always `Ok`.
///
/// It takes as long as both.
pub fn values_of_both_forms<F: Field>(
    alloc: Global,
    dense: &DensePolynomial<F>,
    sparse: &SparsePolynomial<F>,
    point: F,
) -> Result<(F, F), PolyError>
    requires { of_list F.field dense.now ≡ of_pairs F.field sparse.now }
    ensures value { IfOk result (λ y. IsValue F.field (of_list F.field dense.now) point y.0) }
    ensures same { IfOk result (λ y. y.0 ≡ y.1) }
    ensures succeeds { IsOk result }
{
    Ok((
        dense.evaluate(alloc, &point)?,
        sparse.evaluate(alloc, &point)?,
    ))
}

/// The values over a domain of one polynomial in dense form, in sparse form and in either form: they are
/// equal.
///
/// It takes a transform for each.
pub fn values_of_all_forms<F: FftField, D: EvaluationDomain<F>>(
    alloc: Global,
    dense: &DensePolynomial<F>,
    sparse: &SparsePolynomial<F>,
    either: DenseOrSparsePolynomial<'_, F>,
    domain: D,
) -> Result<(Evaluations<F, D>, Evaluations<F, D>, Evaluations<F, D>), PolyError>
    requires sparse { of_pairs F.field sparse.now ≡ of_list F.field dense.now }
    requires either { denoted F.field either ≡ of_list F.field dense.now }
    ensures values { IfOk result (λ v. AreValues F.field (D.domain domain) (of_list F.field dense.now)
        v.0.evals) }
    ensures sparse { IfOk result (λ v. v.1 ≡ v.0) }
    ensures either { IfOk result (λ v. v.2 ≡ v.0) }
    ensures memory { IsOkUnless result PolyError.Memory }
{
    Ok((
        dense.evaluate_over_domain_by_ref(alloc, domain)?,
        sparse.evaluate_over_domain_by_ref(alloc, domain)?,
        either.evaluate_over_domain(alloc, domain)?,
    ))
}

/// What a division answers: quotient and remainder, and `None` where there are none.
pub type Division<F> = Option<(DensePolynomial<F>, DensePolynomial<F>)>;

/// The division of one polynomial by another, and the division with both in other forms: the answers are
/// equal. So what is denoted alone decides quotient and remainder, and whether there are any.
///
/// It takes as long as both.
pub fn divisions_of_all_forms<F: Field>(
    alloc: Global,
    dividend: &DenseOrSparsePolynomial<'_, F>,
    divisor: &DenseOrSparsePolynomial<'_, F>,
    other_dividend: &DenseOrSparsePolynomial<'_, F>,
    other_divisor: &DenseOrSparsePolynomial<'_, F>,
) -> Result<(Division<F>, Division<F>), PolyError>
    requires dividends { denoted F.field other_dividend.now ≡ denoted F.field dividend.now }
    requires divisors { denoted F.field other_divisor.now ≡ denoted F.field divisor.now }
    ensures division { IfOk result (λ p. IfSome p.0 (λ d. IsDivision F.field (denoted F.field dividend.now)
        (denoted F.field divisor.now) (of_list F.field d.0) (of_list F.field d.1))) }
    ensures same { IfOk result (λ p. p.1 ≡ p.0) }
    ensures overflow { (result ≡ Err PolyError.Overflow) ↔ (denoted F.field divisor.now ≢ nothing F.field)
        × IsDegree F.field (denoted F.field dividend.now) usize.MAX }
    ensures errors { IsOkUnlessEither result PolyError.Memory PolyError.Overflow }
{
    let answer = dividend.divide_with_q_and_r(alloc, divisor)?;
    let other = other_dividend.divide_with_q_and_r(alloc, other_divisor)?;
    see_trimmed(&answer);
    see_trimmed(&other);
    Ok((answer, other))
}

// What a division gives is trimmed, and so no other lists denote it.
fn see_trimmed<F: Field>(answer: &Division<F>)
    ensures { IfSome answer.now (λ p. IsTrimmed F.field p.0 × IsTrimmed F.field p.1) }
{
    if let Some((quotient, remainder)) = answer {
        quotient.coeffs();
        remainder.coeffs();
    }
}

/// Quotient and remainder by x - z, and the value at the point z. This is the remainder theorem: the
/// remainder is the value, and there is no other polynomial whose product with x - z is the given one less
/// the value.
///
/// It takes one pass over the coefficients for either, and memory for a copy of them and for the quotient.
pub fn division_at_point<F: Field>(
    alloc: Global,
    polynomial: &DensePolynomial<F>,
    point: F,
) -> Result<(DensePolynomial<F>, DensePolynomial<F>, F), PolyError>
    ensures value { IfOk result (λ p. IsValue F.field (of_list F.field polynomial.now) point p.2) }
    ensures remainder { IfOk result (λ p. of_list F.field p.1 ≡ constant F.field p.2) }
    ensures quotient { IfOk result (λ p. of_list F.field polynomial.now ≡ added F.field
        (product F.field (of_list F.field p.0) (linear_factor F.field point)) (constant F.field p.2)) }
    ensures only { IfOk result (λ p. (q : ℕ → F) (n : ℕ) → IsBelow F.field n q
        → of_list F.field polynomial.now ≡ added F.field (product F.field q (linear_factor F.field point))
        (constant F.field p.2) → q ≡ of_list F.field p.0) }
    ensures memory { IsOkUnless result PolyError.Memory }
{
    let divisor = linear(alloc, point)?;
    let (quotient, remainder) = quotient_and_remainder(alloc, polynomial, &divisor)?;
    let value = polynomial.evaluate(alloc, &point)?;
    Ok((quotient, remainder, value))
}

/// The quotient by x - z where the point z is a root, and `None` where it isn't. This is the factor theorem:
/// a polynomial is a multiple of x - z exactly where its value at z is zero.
///
/// It takes one pass over the coefficients for the value and one for the quotient, and memory for a copy of
/// them and for the quotient.
pub fn without_root<F: Field>(
    alloc: Global,
    polynomial: &DensePolynomial<F>,
    point: F,
) -> Result<Option<DensePolynomial<F>>, PolyError>
    ensures quotient { IfOk result (λ o. IfSome o (λ p. of_list F.field polynomial.now
        ≡ product F.field (of_list F.field p) (linear_factor F.field point))) }
    ensures root { IfOk result (λ o. IsSome o
        ↔ IsValue F.field (of_list F.field polynomial.now) point F.field.zero) }
    ensures multiple { IfOk result (λ o. IsSome o ↔ (q : ℕ → F) × (n : ℕ) × IsBelow F.field n q
        × (of_list F.field polynomial.now ≡ product F.field q (linear_factor F.field point))) }
    ensures memory { IsOkUnless result PolyError.Memory }
{
    let value = polynomial.evaluate(alloc, &point)?;
    if !value.is_zero() {
        return Ok(None);
    }
    let divisor = linear(alloc, point)?;
    Ok(Some(quotient_of(alloc, polynomial, &divisor)?))
}

// The polynomial x - z.
fn linear<F: Field>(alloc: Global, point: F) -> Result<DensePolynomial<F>, PolyError>
    ensures same { IfOk result (λ p. of_list F.field p ≡ linear_factor F.field point) }
    ensures memory { IsOkUnless result PolyError.Memory }
{
    let mut coeffs = Vec::new(alloc);
    coeffs.push(-point)?;
    coeffs.push(F::one())?;
    Ok(DensePolynomial::from_coefficients_vec(coeffs))
}

// Quotient and remainder by a divisor that isn't zero.
fn quotient_and_remainder<F: Field>(
    alloc: Global,
    dividend: &DensePolynomial<F>,
    divisor: &DensePolynomial<F>,
) -> Result<(DensePolynomial<F>, DensePolynomial<F>), PolyError>
    requires { of_list F.field divisor.now ≢ nothing F.field }
    ensures division { IfOk result (λ p. IsQuotient F.field (of_list F.field dividend.now)
        (of_list F.field divisor.now) (of_list F.field p.0) (of_list F.field p.1)) }
    ensures memory { IsOkUnless result PolyError.Memory }
{
    // No list is so long that its degree is `usize::MAX`.
    dividend.coeffs().len();
    let dividend = DenseOrSparsePolynomial::from(dividend);
    let divisor = DenseOrSparsePolynomial::from(divisor);
    let Some(pair) = dividend.divide_with_q_and_r(alloc, &divisor)? else {
        return Err(PolyError::ZeroDivisor);
    };
    Ok(pair)
}

// The quotient by a divisor that isn't zero.
fn quotient_of<F: Field>(
    alloc: Global,
    dividend: &DensePolynomial<F>,
    divisor: &DensePolynomial<F>,
) -> Result<DensePolynomial<F>, PolyError>
    requires { of_list F.field divisor.now ≢ nothing F.field }
    ensures division { IfOk result (λ q. (r : ℕ → F) × IsQuotient F.field (of_list F.field dividend.now)
        (of_list F.field divisor.now) (of_list F.field q) r) }
    ensures memory { IsOkUnless result PolyError.Memory }
{
    dividend.div(alloc, divisor)
}
