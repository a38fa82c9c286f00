//! What domains give at points: weights, vanishing polynomials, filters and orders, over every size.

use crate::calls::{coset, listed};
use crate::forms::gave;
use ark_base::{FftField, Field};
use ark_univariate::univariate::{DensePolynomial, SparsePolynomial};
use ark_univariate::{DenseUVPolynomial, EvaluationDomain, Polynomial};
use std::alloc::Global;

// The product of the point's differences from the elements other than this one.
fn differences<F: Field>(elements: &[F], other: F, point: F) -> F {
    let mut product = F::one();
    for element in elements {
        if *element != other {
            product = product * (point - *element);
        }
    }
    product
}

// Whether the weights at the point are the values there of the Lagrange polynomials by their definition.
fn has_weights<F: FftField, D: EvaluationDomain<F>>(
    alloc: Global,
    domain: &D,
    elements: &[F],
    point: F,
) -> bool {
    let Ok(weights) = domain.evaluate_all_lagrange_coefficients(alloc, point) else {
        return false;
    };
    let mut same = weights.len() == elements.len();
    for (weight, element) in weights.iter().zip(elements) {
        let value = differences(elements, *element, point);
        same = same && *weight * differences(elements, *element, *element) == value;
    }
    same
}

// Whether the vanishing polynomial's value at the point is the one told without it, and zero at an element alone.
fn vanishes<F: FftField, D: EvaluationDomain<F>>(
    alloc: Global,
    domain: &D,
    vanishing: &SparsePolynomial<F>,
    elements: &[F],
    point: F,
) -> bool {
    let told = domain.evaluate_vanishing_polynomial(point);
    told.is_zero() == elements.contains(&point) && gave(vanishing.evaluate(alloc, &point), &told)
}

// Whether that is so at each point of the field, and the degree is the size.
fn has_vanishing<F: FftField, D: EvaluationDomain<F>>(
    alloc: Global,
    domain: &D,
    elements: &[F],
    field_size: u64,
) -> bool {
    let Ok(vanishing) = domain.vanishing_polynomial(alloc) else {
        return false;
    };
    let mut same = vanishing.degree() == domain.size();
    for number in 0..field_size {
        same = same && vanishes(alloc, domain, &vanishing, elements, F::from(number));
    }
    same
}

// The filter of the coset of so many elements that has element `first`.
fn filter_of<F: FftField, D: EvaluationDomain<F>>(
    alloc: Global,
    domain: &D,
    size: usize,
    first: usize,
) -> Option<DensePolynomial<F>> {
    let part = D::new_coset(size, domain.element(first))?;
    domain.filter_polynomial(alloc, &part).ok()
}

// Whether it is one at its elements and zero at the others, and no longer than it has to be.
fn has_filter<F: FftField, D: EvaluationDomain<F>>(
    alloc: Global,
    domain: &D,
    elements: &[F],
    size: usize,
    first: usize,
) -> bool {
    let Some(filter) = filter_of(alloc, domain, size, first) else {
        return false;
    };
    let step = elements.len() / size.max(1);
    let mut right = filter.coeffs().len() == elements.len().saturating_sub(size).saturating_add(1);
    for (i, element) in elements.iter().enumerate() {
        let wanted = F::from(u64::from(i % step.max(1) == first));
        right = right && gave(filter.evaluate(alloc, element), &wanted);
    }
    right
}

// The order of a subgroup's indices that has those of another one's elements first.
fn order<F: FftField, D: EvaluationDomain<F>>(
    alloc: Global,
    domain: &D,
    size: usize,
) -> Option<Vec<usize>> {
    let part = D::new(size)?;
    let mut order = Vec::with_capacity(alloc, domain.size()).ok()?;
    if part.size() != 0 && domain.size() % part.size() == 0 {
        for i in 0..domain.size() {
            order.push(domain.reindex_by_subdomain(part, i)).ok()?;
        }
    }
    Some(order)
}

// Whether the order has the multiples of the step first, which are so many, and each index once.
fn is_order(order: Option<Vec<usize>>, len: usize, size: usize, step: usize) -> bool {
    let Some(mut order) = order else {
        return false;
    };
    let mut right = order.len() == len;
    for (i, index) in order.iter().enumerate().take(size) {
        right = right && Some(*index) == i.checked_mul(step);
    }
    order.sort_unstable();
    for (i, index) in order.iter().enumerate() {
        right = right && *index == i;
    }
    right
}

// Whether the order for subdomains of this size, and the filter of each coset of this size, are so. Of a large domain
// the first two cosets and the last one are tried.
fn has_parts<F: FftField, D: EvaluationDomain<F>>(
    alloc: Global,
    domain: &D,
    elements: &[F],
    size: usize,
) -> bool {
    let count = elements.len() / size.max(1);
    let mut right = is_order(order(alloc, domain, size), elements.len(), size, count);
    for first in 0..count {
        if elements.len() <= 48 || first < 2 || first == count - 1 {
            right = right && has_filter(alloc, domain, elements, size, first);
        }
    }
    right
}

// All that is asked of a coset: the weights at an element, at zero and at a point outside, the vanishing polynomial,
// and filters and orders for each part of these sizes.
fn holds_of<F: FftField, D: EvaluationDomain<F>>(
    alloc: Global,
    domain: &D,
    field_size: u64,
    sizes: &[usize],
) -> bool {
    let Ok(elements) = listed(alloc, domain) else {
        return false;
    };
    let mut right = has_vanishing(alloc, domain, &elements, field_size)
        && has_weights(alloc, domain, &elements, domain.element(1))
        && has_weights(alloc, domain, &elements, F::zero())
        && has_weights(alloc, domain, &elements, F::from(7));
    for size in sizes {
        if elements.len() % (*size).max(1) == 0 {
            right = right && has_parts(alloc, domain, &elements, *size);
        }
    }
    right
}

/// Subgroups and cosets of each of these sizes, over a field of so many elements.
pub fn of_sizes<F: FftField, D: EvaluationDomain<F>>(
    alloc: Global,
    field_size: u64,
    sizes: &[usize],
) -> bool {
    let mut right = true;
    for size in sizes {
        for offset in [1, 5] {
            match coset::<F, D>(*size, offset) {
                Ok(domain) => {
                    right = right
                        && domain.size() == *size
                        && holds_of(alloc, &domain, field_size, sizes);
                }
                Err(_) => right = false,
            }
        }
    }
    right
}
