//! Two orders of terms.

use crate::building::{Powers, Terms, has_terms, polynomial, term};
use crate::lexicographic::LexicographicTerm;
use ark_base::{Field, PolyError, Polynomial};
use ark_multi::multivariate::{SparseTerm, Term};
use ark_poly::laws::graded_order;
use std::alloc::Global;
use std::cmp::Ordering;
use std::hash::{DefaultHasher, Hash, Hasher};
use std::test::Fail;

// In three variables, rising in the graded order.
const RISING: [&[(usize, usize)]; 10] = [
    &[],
    &[(2, 1)],
    &[(1, 1)],
    &[(0, 1)],
    &[(2, 2)],
    &[(1, 1), (2, 1)],
    &[(1, 2)],
    &[(0, 1), (2, 1)],
    &[(0, 1), (1, 1)],
    &[(0, 2)],
];

// And in the lexicographic one.
const LEXICOGRAPHIC: [&[(usize, usize)]; 10] = [
    &[],
    &[(2, 1)],
    &[(2, 2)],
    &[(1, 1)],
    &[(1, 1), (2, 1)],
    &[(1, 2)],
    &[(0, 1)],
    &[(0, 1), (2, 1)],
    &[(0, 1), (1, 1)],
    &[(0, 2)],
];

fn hash_of<T: Hash>(value: &T) -> u64 {
    let mut hasher = DefaultHasher::new();
    value.hash(&mut hasher);
    hasher.finish()
}

fn terms<T: Term>(alloc: Global, list: &[Powers<'_>]) -> Result<Vec<T>, PolyError> {
    let mut terms = Vec::new(alloc);
    for powers in list {
        terms.push(term(alloc, *powers)?)?;
    }
    Ok(terms)
}

// Whether a list's terms compare as their indices, and hash equally where they are equal.
fn rises<T: Term>(alloc: Global, list: &[Powers<'_>]) -> bool {
    let (Ok(terms), Ok(others)) = (terms::<T>(alloc, list), terms::<T>(alloc, list)) else {
        return false;
    };
    let mut right = true;
    for (i, left) in terms.iter().enumerate() {
        for (j, other) in others.iter().enumerate() {
            right = right && left.cmp(other) == i.cmp(&j) && (left == other) == (i == j);
            right = right && (i != j || hash_of(left) == hash_of(other));
        }
    }
    right
}

// What the law tells of three terms whose powers reach past the greatest one.
fn law_holds(alloc: Global) -> Result<bool, PolyError> {
    let great: SparseTerm = term(alloc, &[(0, usize::MAX)])?;
    let other: SparseTerm = term(alloc, &[(0, 1), (1, usize::MAX - 1)])?;
    Ok(
        graded_order(&great, &other) == Ordering::Greater
            && graded_order(&other, &great) == Ordering::Less
            && graded_order(&other, &other) == Ordering::Equal,
    )
}

#[test]
fn orders_of_terms(rt: HostRuntime) -> Result<(), Fail> {
    assert!(rt; rises::<SparseTerm>(rt.alloc(), &RISING));
    assert!(rt; rises::<LexicographicTerm>(rt.alloc(), &LEXICOGRAPHIC));
    assert!(rt; law_holds(rt.alloc())?);
    Ok(())
}

// Whether the polynomial keeps these terms in this order, and the opposite has those.
fn has_order<F: Field, T: Term>(
    alloc: Global,
    list: Terms<'_>,
    ordered: Terms<'_>,
    opposite: Terms<'_>,
) -> bool {
    let Ok(p) = polynomial::<F, T>(alloc, 3, list) else {
        return false;
    };
    match p.neg(alloc) {
        Ok(negated) => has_terms(&p, ordered) && has_terms(&negated, opposite),
        Err(_) => false,
    }
}

/// Terms over the field of five elements in either order.
pub fn terms_in_either_order<F: Field>(alloc: Global) -> bool {
    let list: Terms<'_> = &[(1, &[]), (2, &[(0, 1)]), (3, &[(2, 2)]), (5, &[(1, 1)])];
    has_order::<F, SparseTerm>(
        alloc,
        list,
        &[(1, &[]), (2, &[(0, 1)]), (3, &[(2, 2)])],
        &[(4, &[]), (3, &[(0, 1)]), (2, &[(2, 2)])],
    ) && has_order::<F, LexicographicTerm>(
        alloc,
        list,
        &[(1, &[]), (3, &[(2, 2)]), (2, &[(0, 1)])],
        &[(4, &[]), (2, &[(2, 2)]), (3, &[(0, 1)])],
    )
}
