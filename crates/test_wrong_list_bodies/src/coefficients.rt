//! Calls of coefficients, dense and sparse.

ghost use Rattle.std.specs.Prelude.{◌≡◌, ◌↔◌, ℕ, ◌+◌, ◌-◌, ◌<◌, ◌≤◌, List, length, Err, IfOk, IsTrue};
ghost use Rattle.std.specs.List.Sorted.{IsNonDecreasingBy};
ghost use Rattle.ark_math.specs.Field.{power};
ghost use Rattle.ark_math.specs.Univariate.{IsBelow, IsSparse, IsTrimmed, of_list, of_pairs};
ghost use Rattle.ark_math.specs.Univariate.{added, difference, monomial, opposite, product};

use ark_coeffs::dense::{
    divided_by_binomial, is_trimmed, multiplied_by_binomial, naive_product, reduce_by_binomial,
};
use ark_coeffs::progressions::indicator;
use ark_coeffs::sparse::{difference_of_terms, is_sparse, merged_terms};
use ark_traits::{Field, PolyError};
use std::alloc::{AllocError, Global};

/// The product by all products of two coefficients.
pub fn plain_product<F: Field>(alloc: Global, left: &[F], right: &[F]) -> Result<Vec<F>, PolyError>
    ensures overflow { (result ≡ Err PolyError.Overflow) ↔ (0 < length left.now) × (0 < length right.now)
        × (usize.MAX < length left.now + length right.now - 1) }
{
    naive_product(alloc, left, right)
}

/// The product with `x^n - constant`.
pub fn times_binomial<F: Field>(
    alloc: Global,
    coeffs: &[F],
    n: usize,
    constant: F,
) -> Result<Vec<F>, AllocError>
    requires { n + length coeffs.now ≤ usize.MAX }
    ensures { IfOk result (λ c. of_list F.field c.items ≡ product F.field (of_list F.field coeffs.now)
        (difference F.field (monomial F.field n F.field.one) (monomial F.field 0 constant))) }
{
    multiplied_by_binomial(alloc, coeffs, n, constant)
}

/// Quotient and remainder by `x^n - constant`.
pub fn by_binomial<F: Field>(
    alloc: Global,
    coeffs: &[F],
    n: usize,
    constant: F,
) -> Result<(Vec<F>, Vec<F>), AllocError>
    requires { 0 < n }
    ensures below { IfOk result (λ p. IsBelow F.field n (of_list F.field p.1.items)) }
{
    divided_by_binomial(alloc, coeffs, n, constant)
}

/// The remainder by `x^n - constant` in place of the coefficients.
pub fn reduced<F: Field>(coeffs: &mut Vec<F>, n: usize, constant: F)
    requires { 0 < n }
    ensures { (q : List F) × (of_list F.field coeffs.old.items ≡ added F.field
        (product F.field (of_list F.field q)
        (difference F.field (monomial F.field n F.field.one) (monomial F.field 0 constant)))
        (of_list F.field coeffs.new.items)) }
{
    reduce_by_binomial(coeffs, n, constant);
}

/// Whether the last coefficient isn't zero, where there is one.
pub fn trimmed<F: Field>(coeffs: &[F]) -> bool
    ensures { IsTrue result ↔ IsTrimmed F.field coeffs.now }
{
    is_trimmed(coeffs)
}

/// Whether degrees rise and no term is zero.
pub fn sparse<F: Field>(terms: &[(usize, F)]) -> bool
    ensures { IsTrue result ↔ IsSparse F.field terms.now }
{
    is_sparse(terms)
}

/// The difference of terms and others.
pub fn less_terms<F: Field>(
    alloc: Global,
    left: &[(usize, F)],
    right: &[(usize, F)],
) -> Result<Vec<(usize, F)>, PolyError>
    requires left { IsSparse F.field left.now }
    requires right { IsSparse F.field right.now }
    ensures { IfOk result (λ d. of_pairs F.field d.items
        ≡ added F.field (of_pairs F.field left.now) (opposite F.field (of_pairs F.field right.now))) }
{
    difference_of_terms(alloc, left, right)
}

/// The sums of like terms, of terms whose degrees don't fall.
pub fn merged<F: Field>(alloc: Global, terms: &[(usize, F)]) -> Result<Vec<(usize, F)>, PolyError>
    requires { IsNonDecreasingBy (λ t. t.0) terms.now }
    ensures { IfOk result (λ m. IsSparse F.field m.items) }
{
    merged_terms(alloc, terms)
}

/// One where the element `offset * root^i` is `tau`.
pub fn one_at<F: Field>(
    alloc: Global,
    size: usize,
    offset: F,
    root: F,
    tau: F,
) -> Result<Vec<F>, AllocError>
    ensures { IfOk result (λ l. (i : ℕ) → i < size → F.field.times offset (power F.field root i) ≡ tau
        → of_list F.field l.items i ≡ F.field.one) }
{
    indicator(alloc, size, offset, root, tau)
}
