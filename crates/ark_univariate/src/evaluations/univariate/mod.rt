//! Values of polynomials in one variable over a domain.

ghost use Rattle.std.specs.Prelude.{◌≡◌, ◌↔◌, ◌<◌, ◌&&◌, ◌++◌, ℕ, IsTrue, IfOk, OnOk, OnErr, IsOkUnless};
ghost use Rattle.std.specs.Prelude.{length, replicate, set};
ghost use Rattle.ark_math.specs.Field.{minus};
ghost use Rattle.ark_math_domains.specs.Points.{AreValues};
ghost use Rattle.ark_math.specs.Field.{IsPlaceQuotient};
ghost use Rattle.ark_math.specs.Univariate.{IsBelow, of_list};
ghost use Rattle.std.specs.Cmp.{and_equiv, and_per, on_equiv, on_per};
ghost use Rattle.std.specs.Cmp.Lexicographic.{pointwise, lists_equiv, lists_per};
ghost use Rattle.std.specs.Hash as fed;
ghost use Rattle.std.specs.Hash.{and-Alike, items_Alike, on_Alike};

mod bytes;

use crate::domain::EvaluationDomain;
use crate::polynomial::DenseUVPolynomial;
use crate::polynomial::univariate::DensePolynomial;
use ark_coeffs::dense::{add_each, divide_each, multiply_each, scale_each, subtract_each, zeros};
use ark_traits::{FftField, PolyError};
use std::alloc::{AllocError, Global};
use std::hash::{Hash, Hasher};
use std::marker::Model;
use std::ops::Index;

/// The values of a polynomial at the elements of a domain, as many as the domain has. Two are equal where
/// domains and values are.
///
/// Contracts see the list of the values, and the domain.
#[derive(Drop)]
#[derive_where(Debug; F, D)]
pub struct Evaluations<F: FftField, D: EvaluationDomain<F>> {
    evals: Vec<F>,
    domain: D,
}

impl<F: FftField, D: EvaluationDomain<F>> Model for Evaluations<F, D> {
    ghost use Rattle.std.specs.Prelude.{◌≡◌, length};
    ghost use Rattle.ark_univariate.specs.Values.{Values};

    ghost Value = { Values F D };

    ghost view = { λ v. record { evals = v.evals.items; domain = v.domain } };

    ghost invariant = { λ v. length v.evals.items ≡ (D.domain v.domain).size };
}

impl<F: FftField, D: EvaluationDomain<F>> PartialEq for Evaluations<F, D> {
    ghost eq = { λ a b. pointwise F.eq a.evals b.evals && D.eq a.domain b.domain };

    ghost laws = { and_per (on_per (λ v. v.evals) (lists_per F.PartialEq.laws))
        (on_per (λ v. v.domain) D.PartialEq.laws) };

    fn eq(&self, other: &Self) -> bool {
        self.evals == other.evals && self.domain == other.domain
    }
}

impl<F: FftField, D: EvaluationDomain<F>> Eq for Evaluations<F, D> {
    ghost laws = { and_equiv (on_equiv (λ v. v.evals) (lists_equiv F.Eq.laws))
        (on_equiv (λ v. v.domain) D.Eq.laws) };
}

impl<F: FftField, D: EvaluationDomain<F>> Hash for Evaluations<F, D> {
    ghost hash_input = { λ v. fed.slice F.hash_input v.evals ++ D.hash_input v.domain };

    ghost respects_eq = { (and-Alike (on_Alike (λ v. v.evals) (items_Alike (record { fed = F.respects_eq })))
        (on_Alike (λ v. v.domain) (record { fed = D.respects_eq }))).fed };

    fn hash<H: Hasher>(&self, state: &mut H) {
        self.evals.hash(state);
        self.domain.hash(state);
    }
}

impl<F: FftField, D: EvaluationDomain<F>> Clone for Evaluations<F, D> {
    ghost is_clone = { λ a b. b ≡ a };

    fn clone(&self) -> Result<Self, AllocError> {
        Ok(Evaluations {
            evals: self.evals.clone()?,
            domain: self.domain,
        })
    }
}

impl<F: FftField, D: EvaluationDomain<F>> Evaluations<F, D> {
    /// These values over this domain, as many as it has elements. Takes no memory.
    pub fn from_vec_and_domain(evals: Vec<F>, domain: D) -> Self
        requires { length evals.items ≡ (D.domain domain).size }
        ensures evals { result.evals ≡ evals.items }
        ensures domain { result.domain ≡ domain }
    {
        Evaluations { evals, domain }
    }

    /// Zero at each element.
    pub fn zero(alloc: Global, domain: D) -> Result<Self, PolyError>
        ensures evals { IfOk result (λ v. v.evals ≡ replicate (D.domain domain).size F.field.zero) }
        ensures domain { IfOk result (λ v. v.domain ≡ domain) }
        ensures memory { IsOkUnless result PolyError.Memory }
    {
        let evals = zeros(alloc, domain.size())?;
        Ok(Evaluations { evals, domain })
    }

    /// Replaces the value at the element with this index.
    pub fn set(&mut self, index: usize, value: F)
        requires { index < (D.domain self.old.domain).size }
        ensures evals { self.new.evals ≡ set self.old.evals index value }
        ensures domain { self.new.domain ≡ self.old.domain }
    {
        self.evals[index] = value;
    }

    /// The values in the order of the elements, as many as there are.
    pub fn evals(&self) -> &[F]
        ensures same { result.now ≡ self.now.evals }
        ensures whole { length result.now ≡ (D.domain self.now.domain).size }
    {
        &self.evals
    }

    /// The domain.
    pub fn domain(&self) -> D
        ensures { result ≡ self.now.domain }
    {
        self.domain
    }

    /// The only polynomial of a degree below the domain's size that has these values.
    pub fn interpolate_by_ref(&self, alloc: Global) -> Result<DensePolynomial<F>, PolyError>
        ensures values { IfOk result (λ p. AreValues F.field (D.domain self.now.domain) (of_list F.field p)
            self.now.evals) }
        ensures below { IfOk result (λ p.
            IsBelow F.field (D.domain self.now.domain).size (of_list F.field p)) }
        ensures only { IfOk result (λ p. (other : ℕ → F)
            → IsBelow F.field (D.domain self.now.domain).size other
            → AreValues F.field (D.domain self.now.domain) other self.now.evals
            → other ≡ of_list F.field p) }
        ensures memory { IsOkUnless result PolyError.Memory }
    {
        let coeffs = self.domain.ifft(alloc, &self.evals)?;
        Ok(DensePolynomial::from_coefficients_vec(coeffs))
    }

    /// The only polynomial of a degree below the domain's size that has these values, made in their place.
    pub fn interpolate(self, alloc: Global) -> Result<DensePolynomial<F>, PolyError>
        ensures values { IfOk result (λ p. AreValues F.field (D.domain self.domain) (of_list F.field p)
            self.evals) }
        ensures below { IfOk result (λ p. IsBelow F.field (D.domain self.domain).size (of_list F.field p)) }
        ensures only { IfOk result (λ p. (other : ℕ → F) → IsBelow F.field (D.domain self.domain).size other
            → AreValues F.field (D.domain self.domain) other self.evals
            → other ≡ of_list F.field p) }
        ensures memory { IsOkUnless result PolyError.Memory }
    {
        let mut coeffs = self.evals;
        self.domain.ifft_in_place(alloc, &mut coeffs)?;
        Ok(DensePolynomial::from_coefficients_vec(coeffs))
    }

    /// Adds the values over the same domain, place by place.
    pub fn add_assign(&mut self, other: &Self)
        requires { D.domain self.old.domain ≡ D.domain other.now.domain }
        ensures evals { (i : ℕ) → of_list F.field self.new.evals i
            ≡ F.field.plus (of_list F.field self.old.evals i) (of_list F.field other.now.evals i) }
        ensures domain { self.new.domain ≡ self.old.domain }
    {
        add_each(self.evals.as_mut_slice(), &other.evals);
    }

    /// Subtracts the values over the same domain, place by place.
    pub fn sub_assign(&mut self, other: &Self)
        requires { D.domain self.old.domain ≡ D.domain other.now.domain }
        ensures evals { (i : ℕ) → of_list F.field self.new.evals i
            ≡ minus F.field (of_list F.field self.old.evals i) (of_list F.field other.now.evals i) }
        ensures domain { self.new.domain ≡ self.old.domain }
    {
        subtract_each(self.evals.as_mut_slice(), &other.evals);
    }

    /// Multiplies by the values over the same domain, place by place.
    pub fn mul_assign(&mut self, other: &Self)
        requires { D.domain self.old.domain ≡ D.domain other.now.domain }
        ensures evals { (i : ℕ) → of_list F.field self.new.evals i
            ≡ F.field.times (of_list F.field self.old.evals i) (of_list F.field other.now.evals i) }
        ensures domain { self.new.domain ≡ self.old.domain }
    {
        multiply_each(self.evals.as_mut_slice(), &other.evals);
    }

    /// The sum with the values over the same domain, place by place.
    pub fn add(&self, alloc: Global, other: &Self) -> Result<Self, PolyError>
        requires { D.domain self.now.domain ≡ D.domain other.now.domain }
        ensures evals { IfOk result (λ v. (i : ℕ) → of_list F.field v.evals i
            ≡ F.field.plus (of_list F.field self.now.evals i) (of_list F.field other.now.evals i)) }
        ensures domain { IfOk result (λ v. v.domain ≡ self.now.domain) }
        ensures memory { IsOkUnless result PolyError.Memory }
    {
        let mut sum = self.clone()?;
        sum.add_assign(other);
        Ok(sum)
    }

    /// The difference from the values over the same domain, place by place.
    pub fn sub(&self, alloc: Global, other: &Self) -> Result<Self, PolyError>
        requires { D.domain self.now.domain ≡ D.domain other.now.domain }
        ensures evals { IfOk result (λ v. (i : ℕ) → of_list F.field v.evals i
            ≡ minus F.field (of_list F.field self.now.evals i) (of_list F.field other.now.evals i)) }
        ensures domain { IfOk result (λ v. v.domain ≡ self.now.domain) }
        ensures memory { IsOkUnless result PolyError.Memory }
    {
        let mut difference = self.clone()?;
        difference.sub_assign(other);
        Ok(difference)
    }

    /// The product with the values over the same domain, place by place.
    pub fn mul(&self, alloc: Global, other: &Self) -> Result<Self, PolyError>
        requires { D.domain self.now.domain ≡ D.domain other.now.domain }
        ensures evals { IfOk result (λ v. (i : ℕ) → of_list F.field v.evals i
            ≡ F.field.times (of_list F.field self.now.evals i) (of_list F.field other.now.evals i)) }
        ensures domain { IfOk result (λ v. v.domain ≡ self.now.domain) }
        ensures memory { IsOkUnless result PolyError.Memory }
    {
        let mut product = self.clone()?;
        product.mul_assign(other);
        Ok(product)
    }

    /// Divides by the values over the same domain, place by place, by one batch inversion: zero where the
    /// divisor is. This isn't the quotient of the polynomials. The only error is memory, and then nothing is
    /// changed.
    pub fn div_assign(&mut self, alloc: Global, other: &Self) -> Result<(), PolyError>
        requires { D.domain self.old.domain ≡ D.domain other.now.domain }
        ensures evals { OnOk result ((i : ℕ) → i < (D.domain self.old.domain).size
            → IsPlaceQuotient F.field (of_list F.field self.old.evals i) (of_list F.field other.now.evals i)
            (of_list F.field self.new.evals i)) }
        ensures kept { OnErr result (self.new.evals ≡ self.old.evals) }
        ensures domain { self.new.domain ≡ self.old.domain }
        ensures memory { IsOkUnless result PolyError.Memory }
    {
        divide_each(alloc, self.evals.as_mut_slice(), &other.evals)
    }

    /// The quotients by the values over the same domain, place by place: zero where the divisor is.
    pub fn div(&self, alloc: Global, other: &Self) -> Result<Self, PolyError>
        requires { D.domain self.now.domain ≡ D.domain other.now.domain }
        ensures evals { IfOk result (λ v. (i : ℕ) → i < (D.domain self.now.domain).size
            → IsPlaceQuotient F.field (of_list F.field self.now.evals i) (of_list F.field other.now.evals i)
            (of_list F.field v.evals i)) }
        ensures domain { IfOk result (λ v. v.domain ≡ self.now.domain) }
        ensures memory { IsOkUnless result PolyError.Memory }
    {
        let mut quotient = self.clone()?;
        quotient.div_assign(alloc, other)?;
        Ok(quotient)
    }

    /// The values times the factor.
    pub fn mul_scalar(&self, alloc: Global, factor: F) -> Result<Self, PolyError>
        ensures evals { IfOk result (λ v. (i : ℕ) → of_list F.field v.evals i
            ≡ F.field.times factor (of_list F.field self.now.evals i)) }
        ensures domain { IfOk result (λ v. v.domain ≡ self.now.domain) }
        ensures memory { IsOkUnless result PolyError.Memory }
    {
        let mut evals = Vec::from_slice(alloc, &self.evals)?;
        scale_each(evals.as_mut_slice(), factor);
        Ok(Evaluations {
            evals,
            domain: self.domain,
        })
    }

    /// A law: two are equal by `==` exactly where their values and their domains are.
    pub fn equality_law(&self, other: &Self)
        ensures { IsTrue (⟦<Evaluations<F, D> as PartialEq>⟧.eq self.now other.now)
            ↔ (self.now.evals ≡ other.now.evals) × (D.domain self.now.domain ≡ D.domain other.now.domain) }
    {}
}

impl<F: FftField, D: EvaluationDomain<F>> Index<usize> for Evaluations<F, D> {
    type Output = F;

    ghost can_index = { λ v i. i < (D.domain v.domain).size };

    ghost index_gives = { λ v i x. x ≡ of_list F.field v.evals i };

    fn index(&self, index: usize) -> &F {
        &self.evals[index]
    }
}
