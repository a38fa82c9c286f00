//! Polynomials in several variables by the terms whose coefficients aren't zero.

ghost use Rattle.std.specs.Prelude.{◌≡◌, ◌≢◌, ℕ, ◌≤◌, ◌<◌, ◌⊎◌, List, [], ◌∷◌, length, map, max, All, AllPairs};
ghost use Rattle.std.specs.Prelude.{IfOk, IsOk, OnOk, IsOkUnless};
ghost use Rattle.std.specs.declared.cmp.Ordering.TheVariants.{Less};
ghost use Rattle.ark_math_variables.specs.Term.{IsOnePower, IsWithin};
ghost use Rattle.ark_math_variables.specs.Multivariate.{each_listed, of_listed, of_terms, IsValueAt, IsTotalDegree};
ghost use Rattle.ark_math.specs.Univariate.{added, coefficient_operations, scaled};
ghost use Rattle.ark_coeffs.specs.Multiples.{factor_of};

mod bytes;

use crate::multivariate::Term;
use crate::multivariate::merging::{degree_of_terms, gathered_terms, sum_of_terms, value_of_terms};
use crate::polynomial::DenseMVPolynomial;
use ark_coeffs::multiple::Multiple;
use ark_traits::{Field, PolyError, Polynomial};
use rand::Rng;
use std::alloc::{AllocError, Global};
use std::fmt::{self, Debug, Formatter, Write};

/// A polynomial in several variables by the terms whose coefficients aren't zero, in strictly rising order,
/// beside a number that all their variables are below.
///
/// This number is no part of what `==` compares and `hash` feeds.
#[derive(Drop)]
#[derive_where(PartialEq, Eq, Hash; F, T)]
pub struct SparsePolynomial<F: Field, T: Term> {
    #[derive_where(skip(EqHashOrd))]
    num_vars: usize,
    terms: Vec<(F, T)>,
    ghost rising: { AllPairs (λ c d. T.cmp c.1 d.1 ≡ Less) terms.items },
    ghost not_zero: { All (λ c. c.0 ≢ F.field.zero) terms.items },
    ghost within: { All (λ c. IsWithin num_vars (T.listed c.1)) terms.items },
}

impl<F: Field, T: Term> Clone for SparsePolynomial<F, T> {
    ghost is_clone = { λ p q. (q.num_vars ≡ p.num_vars)
        × (each_listed T.listed q.terms.items ≡ each_listed T.listed p.terms.items) };

    fn clone(&self) -> Result<Self, AllocError> {
        Ok(SparsePolynomial {
            num_vars: self.num_vars,
            terms: self.terms.clone()?,
        })
    }
}

impl<F: Field, T: Term> Debug for SparsePolynomial<F, T> {
    fn fmt<W: Write>(&self, f: &mut Formatter<W>) -> fmt::Result {
        for (coefficient, term) in &self.terms {
            if term.is_constant() {
                write!(f, "\n{coefficient:?}")?;
            } else {
                write!(f, "\n{coefficient:?} {term:?}")?;
            }
        }
        Ok(())
    }
}

impl<F: Field, T: Term> Polynomial<F> for SparsePolynomial<F, T> {
    ghost use Rattle.ark_math_variables.proofs.Polynomials.Multivariate.{multivariate_polynomials};
    ghost use Rattle.ark_multi.specs.LayoutLaws.{terms_show};
    ghost use Rattle.ark_multi.specs.TermLists.{strict_order, sorted_Decides};
    ghost use Rattle.std.proofs.Common.{ap};
    ghost use Rattle.std.proofs.Math.Nat.{max-le};

    type Point = Vec<F>;

    ghost Meaning = { List (ℕ × ℕ) → F };

    ghost meaning = { λ p. of_listed F.field T.listed p.terms.items };

    ghost has_degree = { IsTotalDegree F.field };

    ghost variables = { λ p. p.num_vars };

    ghost fits = { λ n x. n ≤ length x.items };

    ghost has_value = { λ a x y. IsValueAt F.field a x.items y };

    ghost always_evaluates = { Unit {0} };

    ghost addable = { λ _ _. Unit {0} };

    ghost operations = { coefficient_operations F.field };

    fn degree(&self) -> usize {
        degree_of_terms(&self.terms)
    }

    fn point_fits(&self, point: &Vec<F>) -> bool {
        point.len() >= self.num_vars
    }

    fn evaluate(&self, _alloc: Global, point: &Vec<F>) -> Result<F, PolyError>
        requires { ⟦<SparsePolynomial<F, T> as Polynomial<F>>⟧.variables self.now ≤ length point.now.items }
        ensures value { IfOk result (IsValueAt F.field
            (⟦<SparsePolynomial<F, T> as Polynomial<F>>⟧.meaning self.now) point.now.items) }
        ensures succeeds { IsOk result }
    {
        Ok(value_of_terms(&self.terms, point))
    }

    fn zero(alloc: Global) -> Result<Self, PolyError> {
        Ok(SparsePolynomial {
            num_vars: 0,
            terms: Vec::new(alloc),
        })
    }

    fn is_zero(&self) -> bool {
        self.terms.is_empty()
    }

    fn addable(&self, _other: &Self) -> bool {
        true
    }

    fn add(&self, alloc: Global, other: &Self) -> Result<Self, PolyError> {
        self.plus_multiple(alloc, Multiple::Same, other)
    }

    fn sub(&self, alloc: Global, other: &Self) -> Result<Self, PolyError> {
        self.plus_multiple(alloc, Multiple::Opposite, other)
    }

    fn neg(&self, alloc: Global) -> Result<Self, PolyError> {
        SparsePolynomial::zero(alloc)?.sub(alloc, self)
    }

    // The three in place make the sum, and then put it in place of the old value.
    fn add_assign(&mut self, alloc: Global, other: &Self) -> Result<(), PolyError> {
        *self = self.add(alloc, other)?;
        Ok(())
    }

    fn sub_assign(&mut self, alloc: Global, other: &Self) -> Result<(), PolyError> {
        *self = self.sub(alloc, other)?;
        Ok(())
    }

    fn add_assign_scaled(
        &mut self,
        alloc: Global,
        factor: F,
        other: &Self,
    ) -> Result<(), PolyError> {
        *self = self.plus_multiple(alloc, Multiple::Times(factor), other)?;
        Ok(())
    }

    ghost equality_law = { λ a b. sorted_Decides F.field F.field_laws T.listed
        (strict_order T.listed T.total T.matches_eq T.equality_law) F.equality_law T.equality_law
        a.terms.items b.terms.items a.rising b.rising a.not_zero b.not_zero };

    ghost clone_law = { λ a b same. ap (of_terms F.field) same.1 };

    ghost clone_variables = { λ a b same. same.0 };

    ghost fits_max = { λ m n x left right. max-le left right };

    ghost polynomial_laws = { multivariate_polynomials F.field F.field_laws (λ x. x.items) };

    ghost told = { λ mode p q has other same. ap (λ v. of_terms F.field v.1)
        (terms_show (F.format mode) (T.format mode) (F.format_law mode) (T.format_law mode) (λ x. x) T.listed
        (F.elements_law mode).one_to_one (T.pairs_law mode)
        (p.num_vars, p.terms.items) (q.num_vars, q.terms.items) has.0 other.0 same) };

    ghost variables_told = { λ mode p q has other same. ap (λ v. v.0)
        (terms_show (F.format mode) (T.format mode) (F.format_law mode) (T.format_law mode) (λ x. x) T.listed
        (F.elements_law mode).one_to_one (T.pairs_law mode)
        (p.num_vars, p.terms.items) (q.num_vars, q.terms.items) has.0 other.0 same) };
}

impl<F: Field, T: Term> SparsePolynomial<F, T> {
    // The sum with a multiple of another.
    fn plus_multiple(
        &self,
        alloc: Global,
        multiple: Multiple<F>,
        other: &Self,
    ) -> Result<Self, PolyError>
        ensures sum { IfOk result (λ p. of_listed F.field T.listed p.terms.items
            ≡ added F.field (of_listed F.field T.listed self.now.terms.items)
            (scaled F.field (factor_of F.field multiple)
            (of_listed F.field T.listed other.now.terms.items))) }
        ensures variables { IfOk result (λ p. p.num_vars ≡ max self.now.num_vars other.now.num_vars) }
        ensures memory { IsOkUnless result PolyError.Memory }
    {
        Ok(SparsePolynomial {
            num_vars: self.num_vars.max(other.num_vars),
            terms: sum_of_terms(alloc, &self.terms, multiple, &other.terms)?,
        })
    }
}

impl<F: Field, T: Term> DenseMVPolynomial<F> for SparsePolynomial<F, T> {
    ghost use Rattle.std.proofs.Common.{refl};
    ghost use Rattle.ark_math.proofs.Algebra.Groups.{identity_embeds};

    type Term = T;

    ghost listed = { λ p. each_listed T.listed p.terms.items };

    fn from_coefficients_slice(
        alloc: Global,
        num_vars: usize,
        terms: &[(F, T)],
    ) -> Result<Self, PolyError> {
        Self::from_coefficients_vec(alloc, num_vars, terms.to_vec(alloc)?)
    }

    fn from_coefficients_vec(
        alloc: Global,
        num_vars: usize,
        terms: Vec<(F, T)>,
    ) -> Result<Self, PolyError>
        requires { All (λ c. IsWithin num_vars (T.listed c.1)) terms.items }
        ensures sum { IfOk result (λ p. ⟦<SparsePolynomial<F, T> as Polynomial<F>>⟧.meaning p
            ≡ of_listed F.field T.listed terms.items) }
        ensures variables { IfOk result (λ p.
            ⟦<SparsePolynomial<F, T> as Polynomial<F>>⟧.variables p ≡ num_vars) }
        ensures memory { IsOkUnless result PolyError.Memory }
    {
        Ok(SparsePolynomial {
            num_vars,
            terms: gathered_terms(alloc, terms)?,
        })
    }

    fn terms(&self) -> &[(F, T)] {
        &self.terms
    }

    fn num_vars(&self) -> usize {
        self.num_vars
    }

    fn rand<R: Rng>(
        alloc: Global,
        d: usize,
        num_vars: usize,
        rng: &mut R,
    ) -> Result<Self, PolyError> {
        let mut terms = Vec::new(alloc);
        let constant = constant_term(alloc)?;
        terms.push((F::rand(rng), constant))?;
        for variable in 0..num_vars {
            push_powers(alloc, &mut terms, variable, d, rng)?;
        }
        Self::from_coefficients_vec(alloc, num_vars, terms)
    }

    ghost coefficients = { λ a. a };

    ghost coefficients_law = { λ p. refl };

    ghost coefficients_embed = { identity_embeds (coefficient_operations F.field) };

    ghost degree_coefficients = { λ a d. (λ h. h, λ h. h) };

    ghost value_coefficients = { λ a x y. (λ h. h, λ h. h) };

    ghost fits_law = { λ n x. (λ h. h, λ h. h) };

    ghost addable_law = { λ a b. tt };

    ghost evaluates = { tt };
}

// The constant term.
fn constant_term<T: Term>(alloc: Global) -> Result<T, PolyError>
    ensures term { IfOk result (λ t. T.listed t ≡ []) }
    ensures memory { IsOkUnless result PolyError.Memory }
{
    T::new(alloc, Vec::new(alloc))
}

// A power of one variable.
fn power_of_variable<T: Term>(alloc: Global, variable: usize, power: usize) -> Result<T, PolyError>
    requires { 0 < power }
    ensures term { IfOk result (λ t. T.listed t ≡ (variable, power) ∷ []) }
    ensures memory { IsOkUnless result PolyError.Memory }
{
    T::new(alloc, Vec::from_slice(alloc, &[(variable, power)])?)
}

// Adds the powers from 1 to `d` of a variable, with drawn coefficients.
fn push_powers<F: Field, T: Term, R: Rng>(
    alloc: Global,
    terms: &mut Vec<(F, T)>,
    variable: usize,
    d: usize,
    rng: &mut R,
) -> Result<(), PolyError>
    requires { All (λ c. IsOnePower d (T.listed c.1)) terms.old.items }
    ensures within { OnOk result ((n : ℕ) → variable < n
        → All (λ c. IsWithin n (T.listed c.1)) terms.old.items
        → All (λ c. IsWithin n (T.listed c.1)) terms.new.items) }
    ensures powers { OnOk result (All (λ c. IsOnePower d (T.listed c.1)) terms.new.items) }
    ensures memory { IsOkUnless result PolyError.Memory }
{
    for power in 1..=d {
        let term = power_of_variable(alloc, variable, power)?;
        terms.push((F::rand(rng), term))?;
    }
    Ok(())
}
