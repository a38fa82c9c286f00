//! Domains whose size is a power of two times a power of a small odd base.

ghost use Rattle.std.specs.Prelude.{◌≡◌, IsSome};
ghost use Rattle.ark_math.specs.Domain.{mixed_radix as mixed_radix_kind, IsMixedRadix};

mod bytes;

use crate::domain::EvaluationDomain;
pub use crate::domain::utils::Elements;
use ark_fft::domain::{Coset, mixed_radix};
use ark_traits::{FftField, PolyError, Summand, Work};
use std::alloc::{AllocError, Global};
use std::fmt::{self, Debug, Formatter, Write};

/// A domain whose size is a power of two times a power of the field's odd base: the least at or above the
/// number asked for of those of which the field has a root of unity. Over a field without a base there is
/// none.
#[derive_where(Copy, PartialEq, Eq, Hash; F)]
pub struct MixedRadixEvaluationDomain<F: FftField> {
    coset: Coset<F>,
    ghost based: { IsSome F.adicity.odd },
}

impl<F: FftField> Clone for MixedRadixEvaluationDomain<F> {
    ghost is_clone = { λ a b. b ≡ a };

    ghost is_infallible = { λ _. Unit {0} };

    fn clone(&self) -> Result<Self, AllocError> {
        Ok(*self)
    }
}

impl<F: FftField> Debug for MixedRadixEvaluationDomain<F> {
    fn fmt<W: Write>(&self, f: &mut Formatter<W>) -> fmt::Result {
        let size = self.coset.size;
        write!(f, "Mixed-radix multiplicative subgroup of size {size}")
    }
}

impl<F: FftField> EvaluationDomain<F> for MixedRadixEvaluationDomain<F> {
    ghost use Rattle.ark_math_transforms.proofs.Domains.Domains.{same_domain, one_domain, mixed_radix_is_domain};
    ghost use Rattle.ark_univariate.specs.Domains.{mixed_radix_domain};
    ghost use Rattle.ark_math_transforms.proofs.Domains.MixedSizes.{mixed_sizes, one_mixed_size};
    ghost use Rattle.ark_fft.specs.CosetBytes.{all_fields};
    ghost use Rattle.ark_univariate.specs.DomainBytes.{mixed_radix_coset, coset_told};

    type Elements = Elements<F>;

    ghost domain = { mixed_radix_domain };

    ghost chooses = { IsMixedRadix F.adicity };

    fn new(num_coeffs: usize) -> Option<Self> {
        let (size, log_size_of_group, odd_exponent) = mixed_radix::least_size::<F>(num_coeffs)?;
        Some(MixedRadixEvaluationDomain {
            coset: Coset::subgroup(size, log_size_of_group, odd_exponent),
        })
    }

    fn get_coset(&self, offset: F) -> Option<Self> {
        Some(MixedRadixEvaluationDomain {
            coset: self.coset.with_offset(offset)?,
        })
    }

    fn compute_size_of_domain(num_coeffs: usize) -> Option<usize> {
        let (size, _, _) = mixed_radix::least_size::<F>(num_coeffs)?;
        Some(size as usize)
    }

    fn coset(&self) -> &Coset<F> {
        &self.coset
    }

    fn elements(&self) -> Elements<F> {
        Elements::new(self.coset.size, self.coset.offset, self.coset.group_gen)
    }

    fn fft_counted<T: Summand<F>>(
        &self,
        alloc: Global,
        coeffs: &mut Vec<T>,
        work: &mut Work,
    ) -> Result<(), PolyError> {
        mixed_radix::kernel::fft_counted(&self.coset, alloc, coeffs, work)
    }

    fn ifft_counted<T: Summand<F>>(
        &self,
        alloc: Global,
        evals: &mut Vec<T>,
        work: &mut Work,
    ) -> Result<(), PolyError> {
        mixed_radix::kernel::ifft_counted(&self.coset, alloc, evals, work)
    }

    ghost lawful = { λ d. mixed_radix_is_domain F.field F.adicity F.root F.equality_law d.coset.splits d.based
        d.coset.root_is d.coset.offset_not_zero };

    ghost equality = { λ a b. same_domain mixed_radix_kind F.root F.equality_law a.coset.root_is
        b.coset.root_is };

    ghost clone_law = { λ a b e. e };

    ghost clones_law = { λ a. tt };

    ghost told = { λ mode. coset_told all_fields mixed_radix_coset (F.format mode) (F.format_law mode) mixed_radix_domain
        (F.elements_law mode).one_to_one (λ x y. one_domain mixed_radix_kind F.root F.equality_law x.coset.root_is
        y.coset.root_is) mode };

    ghost memory_law = { λ m. m };

    ghost sizes = { mixed_sizes F.adicity };

    ghost one_size = { one_mixed_size F.adicity };
}
