//! Values of drawn polynomials over domains, the polynomials through them, and products and quotients by vanishing
//! polynomials.

use crate::calls::coset;
use crate::forms::{Form, gave, some};
use ark_base::{FftField, Field};
use ark_poly::laws::{values_of_all_forms, weighted_sum};
use ark_univariate::univariate::{DenseOrSparsePolynomial, DensePolynomial, SparsePolynomial};
use ark_univariate::{DenseUVPolynomial, EvaluationDomain, Evaluations, Polynomial};
use rand_pcg::Pcg64;
use std::alloc::Global;

// Whether the values are the polynomial's at the elements of their domain.
fn are_at_elements<F: FftField, D: EvaluationDomain<F>, P: Form<F>>(
    alloc: Global,
    values: &Evaluations<F, D>,
    p: &P,
) -> bool {
    let mut right = values.evals().len() == values.domain().size();
    for (value, element) in values.evals().iter().zip(values.domain().elements()) {
        right = right && p.point_fits(&element) && gave(p.evaluate(alloc, &element), value);
    }
    right
}

// Whether the polynomial through the values is the remainder by the vanishing polynomial, and with weights they give
// its value at the point.
fn are_interpolated<F: FftField, D: EvaluationDomain<F>>(
    alloc: Global,
    values: &Evaluations<F, D>,
    p: &DensePolynomial<F>,
    point: F,
) -> bool {
    match (
        values.interpolate_by_ref(alloc),
        p.divide_by_vanishing_poly(alloc, values.domain()),
    ) {
        (Ok(low), Ok((_, remainder))) => {
            low == remainder && gave(weighted_sum(alloc, values, point), &low.term_by_term(point))
        }
        _ => false,
    }
}

// Whether all this holds of the values of all forms of the polynomial, and these are the same.
fn is_valued<F: FftField, D: EvaluationDomain<F>>(
    alloc: Global,
    domain: D,
    p: &DensePolynomial<F>,
    point: F,
) -> bool {
    let Ok(q) = SparsePolynomial::from_dense(alloc, p) else {
        return false;
    };
    match values_of_all_forms(alloc, p, &q, DenseOrSparsePolynomial::from(p), domain) {
        Ok((dense, sparse, either)) => {
            dense == sparse
                && dense == either
                && are_at_elements(alloc, &dense, p)
                && are_at_elements(alloc, &dense, &q)
                && are_interpolated(alloc, &dense, p, point)
        }
        Err(_) => false,
    }
}

// Whether over the domain the product, by a call and by places, is the remainder of the whole one.
fn multiplies<F: FftField, D: EvaluationDomain<F>>(
    alloc: Global,
    domain: D,
    p: &DensePolynomial<F>,
    q: &DensePolynomial<F>,
) -> bool {
    let Ok(product) = p.naive_mul(alloc, q) else {
        return false;
    };
    match product.divide_by_vanishing_poly(alloc, domain) {
        Ok((_, remainder)) => {
            gave(p.mul_over_domain(alloc, q, domain), &remainder)
                && has_products(alloc, domain, p, q, &product)
        }
        Err(_) => false,
    }
}

// Whether the products of the values are those of the product.
fn has_products<F: FftField, D: EvaluationDomain<F>>(
    alloc: Global,
    domain: D,
    p: &DensePolynomial<F>,
    q: &DensePolynomial<F>,
    product: &DensePolynomial<F>,
) -> bool {
    let (Ok(left), Ok(right), Ok(known)) = (
        p.evaluate_over_domain_by_ref(alloc, domain),
        q.evaluate_over_domain_by_ref(alloc, domain),
        product.evaluate_over_domain_by_ref(alloc, domain),
    ) else {
        return false;
    };
    if left.evals().len() != right.evals().len() {
        return false;
    }
    match domain.mul_polynomials_in_evaluation_domain(alloc, left.evals(), right.evals()) {
        Ok(products) => products.as_slice() == known.evals(),
        Err(_) => false,
    }
}

// Whether the product with the vanishing polynomial is the one by terms.
fn is_product_by_terms<F: FftField, D: EvaluationDomain<F>>(
    alloc: Global,
    domain: D,
    p: &DensePolynomial<F>,
    product: &DensePolynomial<F>,
) -> bool {
    let Ok(vanishing) = domain.vanishing_polynomial(alloc) else {
        return false;
    };
    match DensePolynomial::from_sparse(alloc, &vanishing) {
        Ok(vanishing) => gave(p.naive_mul(alloc, &vanishing), product),
        Err(_) => false,
    }
}

// Whether it is, and it is divided by the vanishing polynomial again.
fn is_divided_back<F: FftField, D: EvaluationDomain<F>>(
    alloc: Global,
    domain: D,
    p: &DensePolynomial<F>,
) -> bool {
    let Ok(product) = p.mul_by_vanishing_poly(alloc, domain) else {
        return false;
    };
    match product.divide_by_vanishing_poly(alloc, domain) {
        Ok((quotient, remainder)) => {
            quotient == *p && remainder.is_zero() && is_product_by_terms(alloc, domain, p, &product)
        }
        Err(_) => false,
    }
}

// Whether quotient and remainder by the vanishing polynomial give the polynomial back.
fn multiplies_back<F: FftField, D: EvaluationDomain<F>>(
    alloc: Global,
    domain: D,
    p: &DensePolynomial<F>,
) -> bool {
    let Ok((quotient, remainder)) = p.divide_by_vanishing_poly(alloc, domain) else {
        return false;
    };
    match quotient.mul_by_vanishing_poly(alloc, domain) {
        Ok(product) => gave(product.add(alloc, &remainder), p),
        Err(_) => false,
    }
}

// The polynomial with so many coefficients, all of which are one.
fn ones<F: Field>(alloc: Global, len: usize) -> Option<DensePolynomial<F>> {
    let mut ones = Vec::new(alloc);
    ones.resize(len, F::one()).ok()?;
    Some(DensePolynomial::from_coefficients_vec(ones))
}

// Whether over the domain drawn polynomials with at most so many coefficients have their values, and are multiplied and
// divided, and as many ones have their values.
fn holds_of_length<F: FftField, D: EvaluationDomain<F>>(
    alloc: Global,
    rng: &mut Pcg64,
    domain: D,
    len: usize,
) -> bool {
    let (Some(p), Some(q), Some(ones)) = (
        some::<F>(alloc, rng, len),
        some::<F>(alloc, rng, len),
        ones(alloc, len),
    ) else {
        return false;
    };
    let point = F::rand(rng);
    is_valued(alloc, domain, &p, point)
        && is_valued(alloc, domain, &ones, point)
        && multiplies(alloc, domain, &p, &q)
        && is_divided_back(alloc, domain, &p)
        && multiplies_back(alloc, domain, &q)
}

/// Cosets by their sizes and offsets, each with these lengths.
pub fn of_lengths<F: FftField, D: EvaluationDomain<F>>(
    alloc: Global,
    cosets: &[(usize, u64)],
    lens: &[usize],
) -> bool {
    let mut rng = Pcg64::new(13, 1);
    let mut right = true;
    for (size, offset) in cosets {
        let Ok(domain) = coset::<F, D>(*size, *offset) else {
            return false;
        };
        for len in lens {
            right = right && holds_of_length(alloc, &mut rng, domain, *len);
        }
    }
    right
}

// Terms of the lowest and of the highest degrees.
fn low_and_high<F: Field>(alloc: Global) -> Option<SparsePolynomial<F>> {
    let mut rng = Pcg64::new(17, 19);
    let mut terms = Vec::new(alloc);
    for i in 0..12 {
        terms.push((i, F::rand(&mut rng))).ok()?;
        terms.push((usize::MAX - i, F::rand(&mut rng))).ok()?;
    }
    SparsePolynomial::from_coefficients_vec(alloc, terms).ok()
}

/// Whether a drawn sum of such terms has its values at the elements of these cosets.
pub fn of_high_terms<F: FftField, D: EvaluationDomain<F>>(
    alloc: Global,
    cosets: &[(usize, u64)],
) -> bool {
    let Some(p) = low_and_high::<F>(alloc) else {
        return false;
    };
    let mut right = true;
    for (size, offset) in cosets {
        let Ok(domain) = coset::<F, D>(*size, *offset) else {
            return false;
        };
        match p.evaluate_over_domain_by_ref(alloc, domain) {
            Ok(values) => right = right && are_at_elements(alloc, &values, &p),
            Err(_) => right = false,
        }
    }
    right
}
