//! Products of coefficients by terms, and what is left of them by `x^n - constant`.

ghost use Rattle.std.specs.Prelude.{◌≡◌, ◌↔◌, ℕ, ◌+◌, ◌<◌, ◌≤◌, length, OnOk, IfOk, IsOkUnless};
ghost use Rattle.std.specs.List.{All};
ghost use Rattle.ark_math.specs.Outcome.{IsOkUnlessEither};
ghost use Rattle.ark_math.specs.Univariate.{IsSparse, IsDegree, IsQuotient, of_pairs, of_list, added};
ghost use Rattle.ark_math.specs.Univariate.{difference, monomial, product};

use ark_coeffs::dense::zeros;
use ark_coeffs::sparse::gathered_terms;
use ark_traits::{Field, PolyError};
use std::alloc::{AllocError, Global};

/// The greatest exponent, 0 where there is none.
pub fn degree_of_terms<F: Field>(terms: &[(usize, F)]) -> usize
    requires { IsSparse F.field terms.now }
    ensures { IsDegree F.field (of_pairs F.field terms.now) result }
{
    match terms.last() {
        None => 0,
        Some(term) => term.0,
    }
}

// Adds the products of a term with each of these.
fn push_multiples<F: Field>(
    products: &mut Vec<(usize, F)>,
    term: (usize, F),
    terms: &[(usize, F)],
) -> Result<(), AllocError>
    requires { All (λ t. term.0 + t.0 ≤ usize.MAX) terms.now }
    ensures { OnOk result (of_pairs F.field products.new.items
        ≡ added F.field (of_pairs F.field products.old.items)
        (product F.field (monomial F.field term.0 term.1) (of_pairs F.field terms.now))) }
{
    for i in 0..terms.len() {
        let other = terms[i];
        products.push((term.0 + other.0, term.1 * other.1))?;
    }
    Ok(())
}

// All products of two terms, those of one left term after those of the last, in a list with room for this many.
fn all_products<F: Field>(
    alloc: Global,
    left: &[(usize, F)],
    right: &[(usize, F)],
    len: usize,
) -> Result<Vec<(usize, F)>, AllocError>
    requires { All (λ s. All (λ t. s.0 + t.0 ≤ usize.MAX) right.now) left.now }
    ensures { IfOk result (λ p. of_pairs F.field p.items
        ≡ product F.field (of_pairs F.field left.now) (of_pairs F.field right.now)) }
{
    let mut products = Vec::with_capacity(alloc, len)?;
    for i in 0..left.len() {
        push_multiples(&mut products, left[i], right)?;
    }
    Ok(products)
}

/// The product of two lists of terms by rising degrees, in the same form. `Overflow` exactly where the sum of
/// the degrees is past `usize::MAX`, judged before memory is asked for.
///
/// It takes a product for each two terms, sorts these products once, and takes memory for them and for the
/// answer; more of them than `usize` counts are answered as `Memory`.
pub fn product_of_terms<F: Field>(
    alloc: Global,
    left: &[(usize, F)],
    right: &[(usize, F)],
) -> Result<Vec<(usize, F)>, PolyError>
    requires left { IsSparse F.field left.now }
    requires right { IsSparse F.field right.now }
    ensures sparse { IfOk result (λ p. IsSparse F.field p.items) }
    ensures product { IfOk result (λ p. of_pairs F.field p.items
        ≡ product F.field (of_pairs F.field left.now) (of_pairs F.field right.now)) }
    ensures overflow { (result ≡ Err PolyError.Overflow) ↔ (m : ℕ) × (n : ℕ)
        × IsDegree F.field (of_pairs F.field left.now) m × IsDegree F.field (of_pairs F.field right.now) n
        × (usize.MAX < m + n) }
    ensures errors { IsOkUnlessEither result PolyError.Memory PolyError.Overflow }
{
    if degree_of_terms(right) > usize::MAX - degree_of_terms(left) {
        return Err(PolyError::Overflow);
    }
    let Some(len) = left.len().checked_mul(right.len()) else {
        return Err(PolyError::Memory);
    };
    let products = all_products(alloc, left, right, len)?;
    gathered_terms(alloc, products)
}

/// What is left of the terms by `x^n - constant`: `n` coefficients, the lowest first. A term `c * x^d` adds
/// `c * constant^(d / n)` to the one at `d % n`; there is memory for the coefficients alone.
pub fn reduced_terms<F: Field>(
    alloc: Global,
    terms: &[(usize, F)],
    n: usize,
    constant: F,
) -> Result<Vec<F>, AllocError>
    requires { 0 < n }
    ensures remainder { IfOk result (λ r. (q : ℕ → F) × IsQuotient F.field (of_pairs F.field terms.now)
        (difference F.field (monomial F.field n F.field.one) (monomial F.field 0 constant)) q
        (of_list F.field r.items)) }
    ensures len { IfOk result (λ r. length r.items ≡ n) }
{
    let mut reduced = zeros(alloc, n)?;
    for i in 0..terms.len() {
        let term = terms[i];
        reduced[term.0 % n] += constant.pow((term.0 / n) as u64) * term.1;
    }
    Ok(reduced)
}
