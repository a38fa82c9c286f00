//! Drawn polynomials, of up to nineteen variables.

use crate::building::{Terms, from_terms, polynomial};
use crate::lexicographic::LexicographicTerm;
use ark_base::{Field, PolyError, Polynomial};
use ark_multi::DenseMVPolynomial;
use ark_multi::multivariate::{SparsePolynomial, SparseTerm, Term};
use rand_core::Rng;
use rand_pcg::Pcg64;
use std::alloc::{AllocError, Global};
use test_types::counting::Counting;
use test_types::sums::{add_up, is_kept_by_zero, value};
use test_types::trials::drawn_elements;

const MOST_TERMS: u64 = 60;

const GREATEST_POWER: u64 = 10;

// About half of the variables, each with a power from 1 on.
fn drawn_powers(
    alloc: Global,
    rng: &mut Pcg64,
    num_vars: usize,
) -> Result<Vec<(usize, usize)>, AllocError> {
    let mut powers = Vec::new(alloc);
    for variable in 0..num_vars {
        let bits = rng.next_u64();
        if bits % 2 == 0 {
            powers.push((variable, 1 + (bits / 2 % GREATEST_POWER) as usize))?;
        }
    }
    Ok(powers)
}

// Terms in no order, some of which may be alike.
fn drawn_terms<F: Field, T: Term>(
    alloc: Global,
    rng: &mut Pcg64,
    num_vars: usize,
) -> Result<Vec<(F, T)>, PolyError> {
    let mut list = Vec::new(alloc);
    for _ in 0..rng.next_u64() % MOST_TERMS {
        let term = T::new(alloc, drawn_powers(alloc, rng, num_vars)?)?;
        list.push((F::from(rng.next_u64()), term))?;
    }
    Ok(list)
}

fn drawn<F: Field, T: Term>(
    alloc: Global,
    rng: &mut Pcg64,
    num_vars: usize,
) -> Result<SparsePolynomial<F, T>, PolyError> {
    from_terms(alloc, num_vars, drawn_terms(alloc, rng, num_vars)?)
}

// The sum of all terms at the point, power by power.
fn term_by_term<F: Field, T: Term>(p: &SparsePolynomial<F, T>, point: &[F]) -> F {
    let mut sum = F::zero();
    for (coefficient, term) in p.terms() {
        let mut product = *coefficient;
        for (variable, power) in term.pairs() {
            let item = point.get(*variable).copied().unwrap_or(F::zero());
            product *= item.pow(*power as u64);
        }
        sum += product;
    }
    sum
}

// Whether two draws and their values add up, and the value is the sum of the terms.
fn holds<F: Field, T: Term>(alloc: Global, rng: &mut Pcg64, left: usize, right: usize) -> bool {
    let (Ok(a), Ok(b), Ok(point)) = (
        drawn::<F, T>(alloc, rng, left),
        drawn::<F, T>(alloc, rng, right),
        drawn_elements(alloc, rng, left.max(right)),
    ) else {
        return false;
    };
    add_up(alloc, &a, &b, F::rand(rng), &point)
        && is_kept_by_zero(alloc, &a)
        && value(alloc, &a, &point) == Some(term_by_term(&a, &point))
}

/// Sums and values of drawn polynomials, with terms in either order.
pub fn sums<F: Field>(alloc: Global) -> bool {
    let mut rng = Pcg64::new(31, 1);
    let mut holding = true;
    for left in 1..20 {
        for right in 1..20 {
            holding = holding && holds::<F, SparseTerm>(alloc, &mut rng, left, right);
        }
        holding = holding && holds::<F, LexicographicTerm>(alloc, &mut rng, left, 20 - left);
    }
    holding
}

// The product of two terms.
fn product_of_terms<T: Term>(alloc: Global, left: &T, right: &T) -> Result<T, PolyError> {
    let mut powers = Vec::from_slice(alloc, left.pairs())?;
    powers.extend_from_slice(right.pairs())?;
    T::new(alloc, powers)
}

// The sum of the products of all two terms.
fn product<F: Field, T: Term>(
    alloc: Global,
    a: &SparsePolynomial<F, T>,
    b: &SparsePolynomial<F, T>,
) -> Result<SparsePolynomial<F, T>, PolyError> {
    let mut terms = Vec::new(alloc);
    for (left, term) in a.terms() {
        for (right, other) in b.terms() {
            terms.push((*left * *right, product_of_terms(alloc, term, other)?))?;
        }
    }
    from_terms(alloc, a.num_vars(), terms)
}

/// The product of two polynomials, by all products of two terms.
pub fn product_of_all_terms<F: Field>(alloc: Global) -> Result<bool, PolyError> {
    let left: Terms<'_> = &[
        (2, &[]),
        (4, &[(0, 1), (1, 2)]),
        (8, &[(0, 1), (0, 1)]),
        (1, &[(3, 0)]),
    ];
    let right: Terms<'_> = &[(1, &[(0, 1), (1, 2)]), (2, &[(2, 1)]), (1, &[(3, 1)])];
    let answer: Terms<'_> = &[
        (3, &[(0, 1), (1, 2)]),
        (6, &[(2, 1)]),
        (3, &[(3, 1)]),
        (4, &[(0, 2), (1, 4)]),
        (8, &[(0, 1), (1, 2), (2, 1)]),
        (4, &[(0, 1), (1, 2), (3, 1)]),
        (8, &[(0, 3), (1, 2)]),
        (16, &[(0, 2), (2, 1)]),
        (8, &[(0, 2), (3, 1)]),
    ];
    let a: SparsePolynomial<F, SparseTerm> = polynomial(alloc, 4, left)?;
    let b = polynomial(alloc, 4, right)?;
    Ok(product(alloc, &a, &b)? == polynomial(alloc, 4, answer)?)
}

// Whether a draw has a constant and the first d powers of each variable alone, takes a word for each coefficient, and
// is not the next one. None of the coefficients is zero over the large field with this seed.
fn has_shape<F: Field, T: Term>(alloc: Global, d: usize, num_vars: usize) -> bool {
    let mut rng = Counting::new(Pcg64::new(32, 1));
    let Ok(p) = SparsePolynomial::<F, T>::rand(alloc, d, num_vars, &mut rng) else {
        return false;
    };
    let count = d.saturating_mul(num_vars).saturating_add(1);
    let mut right = p.num_vars() == num_vars
        && p.degree() == if num_vars == 0 { 0 } else { d }
        && p.terms().len() == count
        && rng.draws == count as u64;
    for (_, term) in p.terms() {
        right = right && term.pairs().len() <= 1;
    }
    match SparsePolynomial::rand(alloc, d, num_vars, &mut rng) {
        Ok(q) => right && p != q,
        Err(_) => false,
    }
}

/// Draws of several shapes.
pub fn by_the_polynomial<F: Field>(alloc: Global) -> bool {
    let mut right = true;
    for (d, num_vars) in [(0, 0), (3, 0), (0, 4), (1, 1), (7, 2), (4, 5)] {
        right = right && has_shape::<F, SparseTerm>(alloc, d, num_vars);
    }
    right
}
