//! Domains whose size is a power of two.

ghost use Rattle.std.specs.Prelude.{◌≡◌};
ghost use Rattle.ark_math.specs.Domain.{radix2 as radix2_kind, IsRadix2};

mod bytes;

use crate::domain::EvaluationDomain;
pub use crate::domain::utils::Elements;
use ark_fft::domain::{Coset, radix2};
use ark_traits::{FftField, PolyError, Summand, Work};
use std::alloc::{AllocError, Global};
use std::fmt::{self, Debug, Formatter, Write};

/// A domain whose size is a power of two: the least at or above the number asked for, where the field has a
/// root of unity of that order.
#[derive_where(Copy, PartialEq, Eq, Hash; F)]
pub struct Radix2EvaluationDomain<F: FftField> {
    coset: Coset<F>,
    ghost even: { coset.odd_exponent ≡ 0 },
}

impl<F: FftField> Clone for Radix2EvaluationDomain<F> {
    ghost is_clone = { λ a b. b ≡ a };

    ghost is_infallible = { λ _. Unit {0} };

    fn clone(&self) -> Result<Self, AllocError> {
        Ok(*self)
    }
}

impl<F: FftField> Debug for Radix2EvaluationDomain<F> {
    fn fmt<W: Write>(&self, f: &mut Formatter<W>) -> fmt::Result {
        let size = self.coset.size;
        write!(f, "Radix-2 multiplicative subgroup of size {size}")
    }
}

impl<F: FftField> EvaluationDomain<F> for Radix2EvaluationDomain<F> {
    ghost use Rattle.ark_math_transforms.proofs.Domains.Domains.{same_domain, one_domain, radix2_is_domain};
    ghost use Rattle.ark_univariate.specs.Domains.{radix2_domain};
    ghost use Rattle.ark_math.proofs.Domains.Sizes.{radix2_sizes, one_radix2_size};
    ghost use Rattle.ark_fft.specs.CosetBytes.{all_fields};
    ghost use Rattle.ark_univariate.specs.DomainBytes.{radix2_coset, coset_told};

    type Elements = Elements<F>;

    ghost domain = { radix2_domain };

    ghost chooses = { IsRadix2 F.adicity };

    fn new(num_coeffs: usize) -> Option<Self> {
        let (size, log_size_of_group) = radix2::least_size::<F>(num_coeffs)?;
        Some(Radix2EvaluationDomain {
            coset: Coset::subgroup(size as u64, log_size_of_group, 0),
        })
    }

    fn get_coset(&self, offset: F) -> Option<Self> {
        Some(Radix2EvaluationDomain {
            coset: self.coset.with_offset(offset)?,
        })
    }

    fn compute_size_of_domain(num_coeffs: usize) -> Option<usize> {
        let (size, _) = radix2::least_size::<F>(num_coeffs)?;
        Some(size)
    }

    fn coset(&self) -> &Coset<F> {
        &self.coset
    }

    fn elements(&self) -> Elements<F> {
        Elements::new(self.coset.size, self.coset.offset, self.coset.group_gen)
    }

    fn fft_counted<T: Summand<F>>(
        &self,
        alloc: Global,
        coeffs: &mut Vec<T>,
        work: &mut Work,
    ) -> Result<(), PolyError> {
        radix2::fft::fft_counted(&self.coset, alloc, coeffs, work)
    }

    fn ifft_counted<T: Summand<F>>(
        &self,
        alloc: Global,
        evals: &mut Vec<T>,
        work: &mut Work,
    ) -> Result<(), PolyError> {
        radix2::fft::ifft_counted(&self.coset, alloc, evals, work)
    }

    ghost lawful = { λ d. radix2_is_domain F.field F.adicity F.root F.equality_law d.coset.splits d.even
        d.coset.root_is d.coset.offset_not_zero };

    ghost equality = { λ a b. same_domain radix2_kind F.root F.equality_law a.coset.root_is b.coset.root_is };

    ghost clone_law = { λ a b e. e };

    ghost clones_law = { λ a. tt };

    ghost told = { λ mode. coset_told all_fields radix2_coset (F.format mode) (F.format_law mode) radix2_domain
        (F.elements_law mode).one_to_one (λ x y. one_domain radix2_kind F.root F.equality_law x.coset.root_is
        y.coset.root_is) mode };

    ghost memory_law = { λ m. m };

    ghost sizes = { radix2_sizes F.adicity };

    ghost one_size = { one_radix2_size F.adicity };
}
