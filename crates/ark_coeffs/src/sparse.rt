//! Coefficients by terms: pairs of exponent and coefficient.

ghost use Rattle.std.specs.Prelude.{◌≡◌, ◌⊎◌, ℕ, ◌<◌, ◌≤◌, [], length};
ghost use Rattle.std.specs.Prelude.{◌↔◌, IsTrue, OnOk, IfOk, IfSome, IsNone, IsOkUnless};
ghost use Rattle.std.specs.List.{All, AllPairs};
ghost use Rattle.std.specs.List.Sorted.{IsNonDecreasingBy};
ghost use Rattle.ark_math.specs.Univariate.{IsSparse, IsValue, of_pairs, added, monomial, opposite, scaled};
ghost use Rattle.ark_coeffs.specs.Multiples.{factor_of};

use crate::multiple::Multiple;
use ark_traits::{Field, PolyError};
use std::alloc::Global;

/// Adds a term of a higher degree than the others, unless it's zero.
pub fn push_term<F: Field>(
    terms: &mut Vec<(usize, F)>,
    degree: usize,
    coefficient: F,
) -> Result<(), PolyError>
    requires sparse { IsSparse F.field terms.old.items }
    requires below { All (λ t. t.0 < degree) terms.old.items }
    ensures sparse { OnOk result (IsSparse F.field terms.new.items) }
    ensures sum { OnOk result (of_pairs F.field terms.new.items
        ≡ added F.field (of_pairs F.field terms.old.items) (monomial F.field degree coefficient)) }
    ensures below { OnOk result ((next : ℕ) → degree < next → All (λ t. t.0 < next) terms.new.items) }
    ensures memory { IsOkUnless result PolyError.Memory }
{
    if !coefficient.is_zero() {
        terms.push((degree, coefficient))?;
    }
    Ok(())
}

/// The sums of like terms that aren't zero, of terms whose degrees don't fall.
pub fn merged_terms<F: Field>(
    alloc: Global,
    terms: &[(usize, F)],
) -> Result<Vec<(usize, F)>, PolyError>
    requires { IsNonDecreasingBy (λ t. t.0) terms.now }
    ensures sparse { IfOk result (λ m. IsSparse F.field m.items) }
    ensures sum { IfOk result (λ m. of_pairs F.field m.items ≡ of_pairs F.field terms.now) }
    ensures memory { IsOkUnless result PolyError.Memory }
{
    let mut merged = Vec::new(alloc);
    let mut degree = 0;
    let mut sum = F::zero();
    for i in 0..terms.len() {
        let term = terms[i];
        if term.0 != degree {
            push_term(&mut merged, degree, sum)?;
            degree = term.0;
            sum = F::zero();
        }
        sum += term.1;
    }
    push_term(&mut merged, degree, sum)?;
    Ok(merged)
}

// The least degree of the terms of two lists; `None` where both are empty.
fn least_degree<F: Field>(left: &[(usize, F)], right: &[(usize, F)]) -> Option<usize>
    requires left { IsSparse F.field left.now }
    requires right { IsSparse F.field right.now }
    ensures left { IfSome result (λ d. All (λ t. d ≤ t.0) left.now) }
    ensures right { IfSome result (λ d. All (λ t. d ≤ t.0) right.now) }
    ensures greatest { IfSome result (λ d. (n : ℕ) → All (λ t. n < t.0) left.now
        → All (λ t. n < t.0) right.now → n < d) }
    ensures none { IsNone result → (left.now ≡ []) × (right.now ≡ []) }
{
    match (left.first(), right.first()) {
        (Some(term), Some(other)) => Some(term.0.min(other.0)),
        (Some(term), None) => Some(term.0),
        (None, Some(term)) => Some(term.0),
        (None, None) => None,
    }
}

// The coefficient at a degree that no term is below, and the terms of higher degrees.
fn split_at_degree<F: Field>(terms: &[(usize, F)], degree: usize) -> (F, &[(usize, F)])
    requires sparse { IsSparse F.field terms.now }
    requires lowest { All (λ t. degree ≤ t.0) terms.now }
    ensures sum { of_pairs F.field terms.now
        ≡ added F.field (monomial F.field degree result.0) (of_pairs F.field result.1.now) }
    ensures sparse { IsSparse F.field result.1.now }
    ensures higher { All (λ t. degree < t.0) result.1.now }
    ensures shorter { (result.1.now ≡ terms.now) ⊎ (length result.1.now < length terms.now) }
{
    match terms.split_first() {
        Some((term, rest)) if term.0 == degree => (term.1, rest),
        _ => (F::zero(), terms),
    }
}

/// The sum of terms and a multiple of others, without zeros. One pass over both lists, and room for both at
/// once.
pub fn sum_with_multiple<F: Field>(
    alloc: Global,
    left: &[(usize, F)],
    multiple: Multiple<F>,
    right: &[(usize, F)],
) -> Result<Vec<(usize, F)>, PolyError>
    requires left { IsSparse F.field left.now }
    requires right { IsSparse F.field right.now }
    ensures sparse { IfOk result (λ s. IsSparse F.field s.items) }
    ensures sum { IfOk result (λ s. of_pairs F.field s.items ≡ added F.field (of_pairs F.field left.now)
        (scaled F.field (factor_of F.field multiple) (of_pairs F.field right.now))) }
    ensures memory { IsOkUnless result PolyError.Memory }
{
    let mut sum = Vec::with_capacity(alloc, left.len().saturating_add(right.len()))?;
    let mut left = left;
    let mut right = right;
    while let Some(degree) = least_degree(left, right) {
        let (coefficient, higher) = split_at_degree(left, degree);
        let (other, others) = split_at_degree(right, degree);
        push_term(&mut sum, degree, coefficient + multiple.of(other))?;
        left = higher;
        right = others;
    }
    Ok(sum)
}

/// The sum of terms and others times a factor, without zeros. The factors one and minus one take no product.
/// One pass over both lists, and room for both at once.
pub fn sum_of_terms<F: Field>(
    alloc: Global,
    left: &[(usize, F)],
    factor: F,
    right: &[(usize, F)],
) -> Result<Vec<(usize, F)>, PolyError>
    requires left { IsSparse F.field left.now }
    requires right { IsSparse F.field right.now }
    ensures sparse { IfOk result (λ s. IsSparse F.field s.items) }
    ensures sum { IfOk result (λ s. of_pairs F.field s.items ≡ added F.field (of_pairs F.field left.now)
        (scaled F.field factor (of_pairs F.field right.now))) }
    ensures memory { IsOkUnless result PolyError.Memory }
{
    sum_with_multiple(alloc, left, Multiple::by(factor), right)
}

/// The difference of terms and others, without zeros. One pass over both lists, and room for both at once.
pub fn difference_of_terms<F: Field>(
    alloc: Global,
    left: &[(usize, F)],
    right: &[(usize, F)],
) -> Result<Vec<(usize, F)>, PolyError>
    requires left { IsSparse F.field left.now }
    requires right { IsSparse F.field right.now }
    ensures sparse { IfOk result (λ d. IsSparse F.field d.items) }
    ensures difference { IfOk result (λ d. of_pairs F.field d.items
        ≡ added F.field (of_pairs F.field left.now) (opposite F.field (of_pairs F.field right.now))) }
    ensures memory { IsOkUnless result PolyError.Memory }
{
    sum_with_multiple(alloc, left, Multiple::Opposite, right)
}

/// The multiple of terms, without zeros: none for the factor zero. Takes room for all of them at once.
pub fn scaled_terms<F: Field>(
    alloc: Global,
    factor: F,
    terms: &[(usize, F)],
) -> Result<Vec<(usize, F)>, PolyError>
    requires { IsSparse F.field terms.now }
    ensures sparse { IfOk result (λ s. IsSparse F.field s.items) }
    ensures multiple { IfOk result (λ s. of_pairs F.field s.items
        ≡ scaled F.field factor (of_pairs F.field terms.now)) }
    ensures memory { IsOkUnless result PolyError.Memory }
{
    let none = Vec::new(alloc);
    sum_of_terms(alloc, &none, factor, terms)
}

/// The value at a point, by one power of the point for each term.
pub fn value_of_terms<F: Field>(terms: &[(usize, F)], point: F) -> F
    ensures { IsValue F.field (of_pairs F.field terms.now) point result }
{
    let mut value = F::zero();
    for i in 0..terms.len() {
        let term = terms[i];
        value += point.pow(term.0 as u64) * term.1;
    }
    value
}

/// The sums of like terms that aren't zero, of terms in any order.
pub fn gathered_terms<F: Field>(
    alloc: Global,
    terms: Vec<(usize, F)>,
) -> Result<Vec<(usize, F)>, PolyError>
    ensures sparse { IfOk result (λ m. IsSparse F.field m.items) }
    ensures sum { IfOk result (λ m. of_pairs F.field m.items ≡ of_pairs F.field terms.items) }
    ensures memory { IsOkUnless result PolyError.Memory }
{
    let mut terms = terms;
    terms.sort_unstable_by_key(|term| term.0);
    merged_terms(alloc, &terms)
}

/// Whether the numbers before the items strictly rise.
pub fn is_rising<T>(items: &[(usize, T)]) -> bool
    ensures { IsTrue result ↔ AllPairs (λ item next. item.0 < next.0) items.now }
{
    items.is_sorted_by(|item, next| item.0 < next.0)
}

/// Whether terms are those that a polynomial keeps: by rising degrees, and none of them zero.
pub fn is_sparse<F: Field>(terms: &[(usize, F)]) -> bool
    ensures { IsTrue result ↔ IsSparse F.field terms.now }
{
    is_rising(terms) && terms.iter().all(|term| !term.1.is_zero())
}
