//! Domains: the elements `offset * root^i` of a subgroup or a coset, and transforms over them.

ghost use Rattle.std.specs.Prelude.{◌≡◌, ◌≢◌, ◌↔◌, ◌⊎◌, ℕ, ◌+◌, ◌-◌, ◌*◌, ◌/◌, ◌%◌, ◌<◌, ◌≤◌, true, false};
ghost use Rattle.std.specs.Prelude.{List, take, map, length, get_or, Decides, IsNone, IfSome, IsTrue, IfOk};
ghost use Rattle.std.specs.Prelude.{IfErr, OnOk, OnErr, IsOkUnless};
ghost use Rattle.std.specs.Iterator.{IsFinite, AlwaysYields};
ghost use Rattle.ark_math.specs.Field.{power, natural, minus};
ghost use Rattle.ark_math.specs.Module.{item};
ghost use Rattle.ark_math.specs.Domain.{Kind, Domain, IsDomain, IsSize, HasNoSize, IsExponentOfTwo, element};
ghost use Rattle.ark_math.specs.Domain.{elements};
ghost use Rattle.ark_math.specs.Transform.{transform, IsInverse, IsOnlyInverse};
ghost use Rattle.ark_math.specs.Univariate.{IsDegree, IsValue, of_list, of_pairs};
ghost use Rattle.ark_math_domains.specs.Points.{vanishing, AreWeights, IsElement, IsContained, IsFilter, reindexed};
ghost use Rattle.ark_math.specs.Cost.{forward, inverse};
ghost use Rattle.ark_math_formats.specs.Format.{Tells};
ghost use Rattle.ark_fft.specs.Cost.{GrowsByCost};

pub mod general;
pub mod mixed_radix;
pub mod radix2;
mod utils;

use crate::polynomial::DenseUVPolynomial;
use crate::polynomial::univariate::{DensePolynomial, SparsePolynomial};
use ark_bytes::{CanonicalDeserialize, CanonicalSerialize};
use ark_coeffs::dense::multiply_each;
use ark_coeffs::progressions::{indicator, inverted_progression_less, spaced_progression};
pub use ark_fft::domain::Coset;
use ark_fft::domain::first_items;
pub use ark_traits::DomainCoeff;
use ark_traits::{FftField, Field, PolyError, Summand, Work};
pub use general::GeneralEvaluationDomain;
pub use mixed_radix::MixedRadixEvaluationDomain;
pub use radix2::Radix2EvaluationDomain;
use rand::Rng;
use std::alloc::Global;
use std::fmt::Debug;
use std::hash::Hash;

/// A subgroup of roots of unity or a coset of one, and the transforms over it.
///
/// A domain has a size `n`, a root of unity of order `n`, and an offset; its element `i` is
/// `offset * root^i`. In bytes the mode `No` has what the getters answer, and the mode `Yes` the size and the
/// offset alone.
pub trait EvaluationDomain<F: FftField>: Copy
    + Eq
    + Hash
    + Debug
    + CanonicalSerialize
    + CanonicalDeserialize {
    ghost use Rattle.ark_bytes.specs.declared.compress.Compress.{Compress};

    /// The iterator over the elements.
    type Elements: Iterator<Item = F>;

    ghost domain: { Self → Domain F };

    // The kind and the size of `new(k)`.
    ghost chooses: { ℕ → Kind → ℕ → Type 0 };

    /// The subgroup of the least size at or above `num_coeffs` that the type allows, and `None` exactly where
    /// there is none.
    ///
    /// ```
    /// let domain = Radix2EvaluationDomain::<F65537>::new(5).ok_or(PolyError::NoDomain)?;
    /// // both have eight elements
    /// let coset = domain.get_coset(F65537::GENERATOR).ok_or(PolyError::NoDomain)?;
    /// ```
    ///
    /// The call takes no memory, and asks the field for one root of unity and two inverses. A mixed radix
    /// domain first looks at the least size for each power of the odd base.
    fn new(num_coeffs: usize) -> Option<Self>
        ensures chosen { IfSome result (λ d. chooses num_coeffs (domain d).kind (domain d).size) }
        ensures subgroup { IfSome result (λ d. (domain d).offset ≡ F.field.one) }
        ensures none { IsNone result ↔ HasNoSize chooses num_coeffs };

    /// The coset with this offset of `new(num_coeffs)`, and `None` exactly where that is none or the offset
    /// is zero.
    final fn new_coset(num_coeffs: usize, offset: F) -> Option<Self>
        ensures chosen { IfSome result (λ d. chooses num_coeffs (domain d).kind (domain d).size) }
        ensures coset { IfSome result (λ d. (domain d).offset ≡ offset) }
        ensures none { IsNone result ↔ (offset ≡ F.field.zero) ⊎ HasNoSize chooses num_coeffs }
    {
        Self::new(num_coeffs)?.get_coset(offset)
    }

    /// The coset of this offset: the domain with the offset in place of its own, and `None` exactly for zero.
    fn get_coset(&self, offset: F) -> Option<Self>
        ensures coset { IfSome result (λ d. domain d ≡ record (domain self.now) { offset = offset }) }
        ensures none { IsNone result ↔ (offset ≡ F.field.zero) };

    /// The size of `new(num_coeffs)`, and `None` exactly where that is none.
    fn compute_size_of_domain(num_coeffs: usize) -> Option<usize>
        ensures size { IfSome result (λ n. (kind : Kind) × chooses num_coeffs kind n) }
        ensures none { IsNone result ↔ HasNoSize chooses num_coeffs };

    /// What all kinds of domains keep: the size, its root of unity, the offset, and what follows from these.
    fn coset(&self) -> &Coset<F>
        ensures size { result.now.size ≡ (domain self.now).size }
        ensures root { result.now.group_gen ≡ (domain self.now).root }
        ensures offset { result.now.offset ≡ (domain self.now).offset };

    /// The number of elements.
    final fn size(&self) -> usize
        ensures { result ≡ (domain self.now).size }
    {
        self.coset().size as usize
    }

    /// The exponent of two in the size.
    final fn log_size_of_group(&self) -> u64
        ensures { IsExponentOfTwo (domain self.now).size result }
    {
        self.coset().log_size_of_group()
    }

    /// The size, as the sum of that many ones.
    final fn size_as_field_element(&self) -> F
        ensures { result ≡ natural F.field (domain self.now).size }
    {
        self.coset().size_as_field_element()
    }

    /// The inverse of the size.
    final fn size_inv(&self) -> F
        ensures { F.field.times (natural F.field (domain self.now).size) result ≡ F.field.one }
    {
        self.coset().size_inv()
    }

    /// The root of unity whose powers are the subgroup.
    final fn group_gen(&self) -> F
        ensures { result ≡ (domain self.now).root }
    {
        self.coset().group_gen
    }

    /// The inverse of the root.
    final fn group_gen_inv(&self) -> F
        ensures { F.field.times (domain self.now).root result ≡ F.field.one }
    {
        self.coset().group_gen_inv()
    }

    /// The offset; one for a subgroup.
    final fn coset_offset(&self) -> F
        ensures { result ≡ (domain self.now).offset }
    {
        self.coset().offset
    }

    /// The inverse of the offset.
    final fn coset_offset_inv(&self) -> F
        ensures { F.field.times (domain self.now).offset result ≡ F.field.one }
    {
        self.coset().offset_inv()
    }

    /// The offset to the power of the size.
    final fn coset_offset_pow_size(&self) -> F
        ensures { result ≡ power F.field (domain self.now).offset (domain self.now).size }
    {
        self.coset().offset_pow_size()
    }

    /// Element `i`, for every `i`: past the size they come again.
    final fn element(&self, i: usize) -> F
        ensures { result ≡ element F.field (domain self.now) i }
    {
        self.coset_offset() * self.group_gen().pow(i as u64)
    }

    /// The elements in order, and then the end. They are all different.
    fn elements(&self) -> Self::Elements
        ensures can { Self.Elements.can_next result }
        ensures finite { IsFinite (Self.Elements.remaining result) }
        ensures yields { AlwaysYields Self.Elements.next_gives (λ x. x) result
            (elements F.field (domain self.now)) }
        ensures different { (i j : ℕ) → i < (domain self.now).size → j < (domain self.now).size
            → element F.field (domain self.now) i ≡ element F.field (domain self.now) j → i ≡ j };

    /// The values at the elements of the polynomial with these coefficients, cut to the domain's size or
    /// filled with zeros: place `i` has the sum over `j` of coefficient `j` times `element(i)^j`.
    ///
    /// ```
    /// let domain = Radix2EvaluationDomain::<F65537>::new(coeffs.len()).ok_or(PolyError::NoDomain)?;
    /// let values = domain.fft(alloc, &coeffs)?; // values[i] is the value at domain.element(i)
    /// ```
    ///
    /// Over `n` elements with `n` a power of two it takes `n/2 * log2(n)` butterflies, and for at most `n/4`
    /// coefficients `n/2 * log2(d)`, where `d` is the least power of two at or above their number. Over
    /// `n = 2^a * q^b` elements of a mixed radix domain it takes `a * n/2` butterflies and `b * n/q` steps. A
    /// butterfly is one product, a step `q^2 - 1`, and at most `n` products more shift to a coset. Beside the
    /// values there is memory for `n/2` field elements while it runs; in a mixed radix domain for at most
    /// `n + 2^a`, and for `n` values more.
    final fn fft<T: DomainCoeff<F>>(&self, alloc: Global, coeffs: &[T]) -> Result<Vec<T>, PolyError>
        ensures transform { IfOk result (λ values. map T.meaning values.items
            ≡ transform F.field T.group (domain self.now) (map T.meaning coeffs.now)) }
        ensures len { IfOk result (λ values. length values.items ≡ (domain self.now).size) }
        ensures memory { IsOkUnless result PolyError.Memory }
    {
        let mut values = first_items(alloc, coeffs, self.size())?;
        self.fft_in_place(alloc, &mut values)?;
        Ok(values)
    }

    /// The values in place of the coefficients, as `fft` gives them. All memory is taken before the list is
    /// touched, and after an error the list is as it was.
    final fn fft_in_place<T: DomainCoeff<F>>(
        &self,
        alloc: Global,
        coeffs: &mut Vec<T>,
    ) -> Result<(), PolyError>
        ensures transform { OnOk result (map T.meaning coeffs.new.items
            ≡ transform F.field T.group (domain self.now) (map T.meaning coeffs.old.items)) }
        ensures kept { OnErr result (coeffs.new.items ≡ coeffs.old.items) }
        ensures memory { IsOkUnless result PolyError.Memory }
    {
        self.fft_counted(alloc, coeffs, &mut Work::new())
    }

    /// `fft_in_place` with its cost told. After an error the counts are as they were.
    fn fft_counted<T: Summand<F>>(
        &self,
        alloc: Global,
        coeffs: &mut Vec<T>,
        work: &mut Work,
    ) -> Result<(), PolyError>
        ensures transform { OnOk result (map T.meaning coeffs.new.items
            ≡ transform F.field T.group (domain self.now) (map T.meaning coeffs.old.items)) }
        ensures cost { OnOk result (GrowsByCost F.adicity (domain self.now) (length coeffs.old.items) forward
            work.old work.new) }
        ensures kept { OnErr result (coeffs.new.items ≡ coeffs.old.items) }
        ensures uncounted { OnErr result (work.new ≡ work.old) }
        ensures memory { IsOkUnless result PolyError.Memory };

    /// The list of `size` items whose transform is the given one, cut to the domain's size or filled with
    /// zeros. There is only one.
    ///
    /// ```
    /// let values = domain.fft(alloc, &coeffs)?;
    /// let back = domain.ifft(alloc, &values)?; // the coefficients, cut to the size or filled with zeros
    /// ```
    ///
    /// Over `n` elements it takes `n/2 * log2(n)` butterflies however short the list is, or in a mixed radix
    /// domain those butterflies and steps that `fft` takes, and at most `n` products more. It takes as much
    /// memory as `fft`.
    final fn ifft<T: DomainCoeff<F>>(&self, alloc: Global, evals: &[T]) -> Result<Vec<T>, PolyError>
        ensures inverse { IfOk result (λ coeffs. IsInverse F.field T.group (domain self.now)
            (map T.meaning evals.now) (map T.meaning coeffs.items)) }
        ensures only { IfOk result (λ coeffs. IsOnlyInverse F.field T.group (domain self.now)
            (map T.meaning evals.now) (map T.meaning coeffs.items)) }
        ensures len { IfOk result (λ coeffs. length coeffs.items ≡ (domain self.now).size) }
        ensures memory { IsOkUnless result PolyError.Memory }
    {
        let mut coeffs = first_items(alloc, evals, self.size())?;
        self.ifft_in_place(alloc, &mut coeffs)?;
        Ok(coeffs)
    }

    /// The coefficients in place of the values, as `ifft` gives them. All memory is taken before the list is
    /// touched, and after an error the list is as it was.
    final fn ifft_in_place<T: DomainCoeff<F>>(
        &self,
        alloc: Global,
        evals: &mut Vec<T>,
    ) -> Result<(), PolyError>
        ensures inverse { OnOk result (IsInverse F.field T.group (domain self.now)
            (map T.meaning evals.old.items) (map T.meaning evals.new.items)) }
        ensures only { OnOk result (IsOnlyInverse F.field T.group (domain self.now)
            (map T.meaning evals.old.items) (map T.meaning evals.new.items)) }
        ensures kept { OnErr result (evals.new.items ≡ evals.old.items) }
        ensures memory { IsOkUnless result PolyError.Memory }
    {
        self.ifft_counted(alloc, evals, &mut Work::new())
    }

    /// `ifft_in_place` with its cost told. After an error the counts are as they were.
    fn ifft_counted<T: Summand<F>>(
        &self,
        alloc: Global,
        evals: &mut Vec<T>,
        work: &mut Work,
    ) -> Result<(), PolyError>
        ensures inverse { OnOk result (IsInverse F.field T.group (domain self.now)
            (map T.meaning evals.old.items) (map T.meaning evals.new.items)) }
        ensures only { OnOk result (IsOnlyInverse F.field T.group (domain self.now)
            (map T.meaning evals.old.items) (map T.meaning evals.new.items)) }
        ensures cost { OnOk result (GrowsByCost F.adicity (domain self.now) (length evals.old.items) inverse
            work.old work.new) }
        ensures kept { OnErr result (evals.new.items ≡ evals.old.items) }
        ensures uncounted { OnErr result (work.new ≡ work.old) }
        ensures memory { IsOkUnless result PolyError.Memory };

    /// Multiplies item `i` by `g^i`.
    final fn distribute_powers<T: DomainCoeff<F>>(coeffs: &mut [T], g: F)
        ensures { (i : ℕ) → i < length coeffs.old → item T.group (map T.meaning coeffs.new) i
            ≡ T.group.scale (power F.field g i) (item T.group (map T.meaning coeffs.old) i) }
    {
        let one = F::one();
        Self::distribute_powers_and_mul_by_const(coeffs, g, one);
    }

    /// Multiplies item `i` by `c * g^i`.
    final fn distribute_powers_and_mul_by_const<T: DomainCoeff<F>>(coeffs: &mut [T], g: F, c: F)
        ensures { (i : ℕ) → i < length coeffs.old → item T.group (map T.meaning coeffs.new) i
            ≡ T.group.scale (F.field.times c (power F.field g i))
            (item T.group (map T.meaning coeffs.old) i) }
    {
        let mut factor = c;
        for i in 0..coeffs.len() {
            coeffs[i] *= factor;
            factor *= g;
        }
    }

    /// The weights by which the values at the elements give the value at `tau`, for every polynomial of a
    /// degree below the size: the values at `tau` of the Lagrange basis. At an element they are one at its
    /// index and zero elsewhere; at any other point they take one batch inversion.
    ///
    /// ```
    /// let weights = domain.evaluate_all_lagrange_coefficients(alloc, tau)?;
    /// // the polynomial's value at tau is the sum of weights[i] * values[i]
    /// ```
    ///
    /// Over `n` elements it takes some `4 * n` products and two inversions, and memory for `n` field elements
    /// beside the weights while it runs; at an element `n` products, and no memory beside the weights.
    final fn evaluate_all_lagrange_coefficients(
        &self,
        alloc: Global,
        tau: F,
    ) -> Result<Vec<F>, PolyError>
        ensures weights { IfOk result (λ l. AreWeights F.field (domain self.now) tau l.items) }
        ensures only { IfOk result (λ l. (other : List F) → AreWeights F.field (domain self.now) tau other
            → other ≡ l.items) }
        ensures memory { IsOkUnless result PolyError.Memory }
    {
        let vanishing = self.evaluate_vanishing_polynomial(tau);
        match vanishing.inverse() {
            None => Ok(indicator(
                alloc,
                self.size(),
                self.coset_offset(),
                self.group_gen(),
                tau,
            )?),
            Some(inverse) => {
                let constant = self.size_as_field_element()
                    * self.coset_offset_pow_size()
                    * inverse;
                let first = tau * constant * self.coset_offset_inv();
                inverted_progression_less(alloc, self.size(), first, self.group_gen_inv(), constant)
            }
        }
    }

    /// The vanishing polynomial, `x^n - offset^n`: zero exactly at the elements.
    final fn vanishing_polynomial(&self, alloc: Global) -> Result<SparsePolynomial<F>, PolyError>
        ensures polynomial { IfOk result (λ p. of_pairs F.field p ≡ vanishing F.field (domain self.now)) }
        ensures memory { IsOkUnless result PolyError.Memory }
    {
        let mut terms = Vec::with_capacity(alloc, 2)?;
        terms.push((0, -self.coset_offset_pow_size()))?;
        terms.push((self.size(), F::one()))?;
        SparsePolynomial::from_coefficients_vec(alloc, terms)
    }

    /// The value of the vanishing polynomial: zero exactly at the elements.
    final fn evaluate_vanishing_polynomial(&self, tau: F) -> F
        ensures value { IsValue F.field (vanishing F.field (domain self.now)) tau result }
        ensures zero { (result ≡ F.field.zero) ↔ IsElement F.field (domain self.now) tau }
    {
        tau.pow(self.size() as u64) - self.coset_offset_pow_size()
    }

    /// Whether each element of the other domain is one of this domain.
    final fn contains_subdomain(&self, subdomain: &Self) -> bool
        ensures { IsTrue result ↔ IsContained F.field (domain subdomain.now) (domain self.now) }
    {
        self.size() % subdomain.size() == 0
            && subdomain.coset_offset().pow(self.size() as u64) == self.coset_offset_pow_size()
    }

    /// The polynomial that is one at the subdomain's elements and zero at the others, of the least degree:
    /// the difference of the sizes. `ForeignSubdomain` exactly where the subdomain isn't contained, judged
    /// before memory is asked for.
    ///
    /// ```
    /// let subdomain = Radix2EvaluationDomain::<F65537>::new(4).ok_or(PolyError::NoDomain)?;
    /// let filter = domain.filter_polynomial(alloc, &subdomain)?; // one at four elements of the domain
    /// ```
    ///
    /// For sizes `n` and `s` it takes memory for the `n - s + 1` coefficients alone, of which `n/s` are not
    /// zero, and a product for each of these beside a few powers.
    final fn filter_polynomial(
        &self,
        alloc: Global,
        subdomain: &Self,
    ) -> Result<DensePolynomial<F>, PolyError>
        ensures filter { IfOk result (λ p. IsFilter F.field (domain subdomain.now) (domain self.now)
            (of_list F.field p)) }
        ensures only { IfOk result (λ p. (other : ℕ → F) →
            IsFilter F.field (domain subdomain.now) (domain self.now) other → other ≡ of_list F.field p) }
        ensures degree { IfOk result (λ p. IsDegree F.field (of_list F.field p)
            ((domain self.now).size - (domain subdomain.now).size)) }
        ensures contained { IfOk result (λ p. IsContained F.field (domain subdomain.now) (domain self.now)) }
        ensures foreign { (result ≡ Err PolyError.ForeignSubdomain)
            ↔ (IsContained F.field (domain subdomain.now) (domain self.now) → ⊥) }
        ensures errors { IfErr result (λ e. (e ≡ PolyError.Memory) ⊎ (e ≡ PolyError.ForeignSubdomain)) }
    {
        if !self.contains_subdomain(subdomain) {
            return Err(PolyError::ForeignSubdomain);
        }
        let start = subdomain.size_as_field_element() * self.size_inv();
        let ratio = subdomain.coset_offset_inv().pow(subdomain.size() as u64);
        let coeffs = spaced_progression(alloc, self.size(), subdomain.size(), start, ratio)?;
        Ok(DensePolynomial::from_coefficients_vec(coeffs))
    }

    /// The value of the polynomial that is one at the subdomain's elements and zero at the others, of the
    /// least degree, and `None` exactly where the subdomain isn't contained.
    final fn evaluate_filter_polynomial(&self, subdomain: &Self, tau: F) -> Option<F>
        ensures value { IfSome result (λ y. (a : ℕ → F)
            × IsFilter F.field (domain subdomain.now) (domain self.now) a × IsValue F.field a tau y) }
        ensures contained { IfSome result (λ y. IsContained F.field (domain subdomain.now)
            (domain self.now)) }
        ensures none { IsNone result ↔ ¬ IsContained F.field (domain subdomain.now) (domain self.now) }
    {
        if !self.contains_subdomain(subdomain) {
            return None;
        }
        let vanishing = subdomain.evaluate_vanishing_polynomial(tau);
        if vanishing.is_zero() {
            return Some(F::one());
        }
        let divisor = self.size_as_field_element() * self.coset_offset_pow_size() * vanishing;
        Some(
            subdomain.size_as_field_element()
                * subdomain.coset_offset_pow_size()
                * self.evaluate_vanishing_polynomial(tau)
                * divisor.inverse().unwrap(),
        )
    }

    /// Item `i` of the order of this domain's indices that has those of the subdomain's elements first: the
    /// multiples of the sizes' quotient, and then the others.
    final fn reindex_by_subdomain(&self, other: Self, i: usize) -> usize
        requires divides { (domain self.now).size % (domain other).size ≡ 0 }
        requires within { i < (domain self.now).size }
        ensures { result ≡ get_or (reindexed (domain self.now).size (domain other).size) i 0 }
    {
        let step = self.size() / other.size();
        if i < other.size() {
            i * step
        } else {
            let rest = i - other.size();
            rest + rest / (step - 1) + 1
        }
    }

    /// The products of two polynomials' values, place by place: the values of the polynomials' product.
    ///
    /// The call takes a product for each place, and memory for the products alone.
    final fn mul_polynomials_in_evaluation_domain(
        &self,
        alloc: Global,
        self_evals: &[F],
        other_evals: &[F],
    ) -> Result<Vec<F>, PolyError>
        requires { length self_evals.now ≡ length other_evals.now }
        ensures products { IfOk result (λ v. (i : ℕ) → of_list F.field v.items i
            ≡ F.field.times (of_list F.field self_evals.now i) (of_list F.field other_evals.now i)) }
        ensures len { IfOk result (λ v. length v.items ≡ length self_evals.now) }
        ensures memory { IsOkUnless result PolyError.Memory }
    {
        let mut products = Vec::from_slice(alloc, self_evals)?;
        multiply_each(products.as_mut_slice(), other_evals);
        Ok(products)
    }

    /// The first of at most `tries` draws that is no element of the domain, and `None` where all of them are.
    final fn sample_element_outside_domain<R: Rng>(&self, rng: &mut R, tries: usize) -> Option<F>
        ensures outside { IfSome result (λ x. ¬ IsElement F.field (domain self.now) x) }
        ensures untried { tries ≡ 0 → IsNone result }
    {
        for _ in 0..tries {
            let drawn = F::rand(rng);
            if !self.evaluate_vanishing_polynomial(drawn).is_zero() {
                return Some(drawn);
            }
        }
        None
    }

    // A domain is one that the constructors give.
    ghost lawful: { (d : Self) → IsDomain F.field F.adicity F.root (domain d) };

    // Domains are equal exactly where kind, size and offset are; the root is the size's.
    ghost equality: { (a b : Self) → Decides (Self.eq a b) (domain a ≡ domain b) };

    // A clone is the domain itself, and never fails.
    ghost clone_law: { (a b : Self) → Self.is_clone a b → b ≡ a };

    ghost clones_law: { (a : Self) → Self.is_infallible a };

    // In each mode a spelling tells the domain.
    ghost told: { (mode : Compress) → Tells domain (Self.format mode) };

    // Reading one takes no memory.
    ghost memory_law: { ¬ Self.takes_memory };

    // A chosen size is one of the kind's, and the only one.
    ghost sizes: { (k : ℕ) (kind : Kind) (n : ℕ) → chooses k kind n → IsSize F.adicity kind n × (k ≤ n) };

    ghost one_size: { (k : ℕ) (a b : Kind) (m n : ℕ) → chooses k a m → chooses k b n → (a ≡ b) × (m ≡ n) };
}
