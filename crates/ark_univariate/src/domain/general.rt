//! Domains of either kind.

ghost use Rattle.std.specs.Prelude.{◌≡◌};
ghost use Rattle.ark_math.specs.Domain.{radix2, mixed_radix, IsGeneral};
ghost use Rattle.ark_univariate.specs.declared.domain.general.GeneralEvaluationDomain.TheVariants.{Radix2};
ghost use Rattle.ark_univariate.specs.declared.domain.general.GeneralEvaluationDomain.TheVariants.{MixedRadix};

mod bytes;

pub use crate::domain::utils::Elements;
use crate::domain::{EvaluationDomain, MixedRadixEvaluationDomain, Radix2EvaluationDomain};
use ark_fft::domain::Coset;
use ark_traits::{FftField, PolyError, Summand, Work};
use std::alloc::{AllocError, Global};

/// A domain of either kind: for a number of coefficients the radix 2 domain wherever there is one, even where
/// a mixed one would be smaller, and otherwise the mixed radix domain.
#[derive_where(Copy, Debug, PartialEq, Eq, Hash; F)]
pub enum GeneralEvaluationDomain<F: FftField> {
    /// A domain whose size is a power of two.
    Radix2(Radix2EvaluationDomain<F>),
    /// A domain whose size is a power of two times a power of the field's odd base.
    MixedRadix(MixedRadixEvaluationDomain<F>),
}

impl<F: FftField> Clone for GeneralEvaluationDomain<F> {
    ghost is_clone = { λ a b. b ≡ a };

    ghost is_infallible = { λ _. Unit {0} };

    fn clone(&self) -> Result<Self, AllocError> {
        Ok(*self)
    }
}

/// An expression over the domain of either variant.
macro_rules! over_both {
    ($value:expr, $domain:ident => $result:expr) => {
        match $value {
            GeneralEvaluationDomain::Radix2($domain) => $result,
            GeneralEvaluationDomain::MixedRadix($domain) => $result,
        }
    };
}

impl<F: FftField> EvaluationDomain<F> for GeneralEvaluationDomain<F> {
    ghost use Rattle.ark_math_transforms.proofs.Domains.Domains.{same_domain, one_domain, other_kind, radix2_is_not_mixed};
    ghost use Rattle.ark_math_transforms.proofs.Domains.Domains.{radix2_is_domain, mixed_radix_is_domain};
    ghost use Rattle.ark_univariate.specs.Domains.{general_domain};
    ghost use Rattle.ark_math_transforms.proofs.Domains.GeneralSizes.{general_sizes, one_general_size};
    ghost use Rattle.std.proofs.Common.{refl, sym};
    ghost use Rattle.ark_fft.specs.CosetBytes.{all_fields};
    ghost use Rattle.ark_univariate.specs.Domains.{radix2_domain, mixed_radix_domain};
    ghost use Rattle.ark_univariate.specs.DomainBytes.{radix2_coset, mixed_radix_coset, either_of};
    ghost use Rattle.ark_univariate.specs.DomainBytes.{coset_format, coset_told, either_told};

    type Elements = GeneralElements<F>;

    ghost domain = { general_domain };

    ghost chooses = { IsGeneral F.adicity };

    fn new(num_coeffs: usize) -> Option<Self> {
        if let Some(by_twos) = Radix2EvaluationDomain::new(num_coeffs) {
            return Some(GeneralEvaluationDomain::Radix2(by_twos));
        }
        let mixed = MixedRadixEvaluationDomain::new(num_coeffs)?;
        Some(GeneralEvaluationDomain::MixedRadix(mixed))
    }

    fn get_coset(&self, offset: F) -> Option<Self> {
        Some(match self {
            GeneralEvaluationDomain::Radix2(by_twos) => {
                GeneralEvaluationDomain::Radix2(by_twos.get_coset(offset)?)
            }
            GeneralEvaluationDomain::MixedRadix(mixed) => {
                GeneralEvaluationDomain::MixedRadix(mixed.get_coset(offset)?)
            }
        })
    }

    fn compute_size_of_domain(num_coeffs: usize) -> Option<usize> {
        match Radix2EvaluationDomain::<F>::compute_size_of_domain(num_coeffs) {
            Some(size) => Some(size),
            None => MixedRadixEvaluationDomain::<F>::compute_size_of_domain(num_coeffs),
        }
    }

    fn coset(&self) -> &Coset<F> {
        over_both!(self, domain => domain.coset())
    }

    fn elements(&self) -> GeneralElements<F> {
        over_both!(self, domain => GeneralElements(domain.elements()))
    }

    fn fft_counted<T: Summand<F>>(
        &self,
        alloc: Global,
        coeffs: &mut Vec<T>,
        work: &mut Work,
    ) -> Result<(), PolyError> {
        over_both!(self, domain => domain.fft_counted(alloc, coeffs, work))
    }

    fn ifft_counted<T: Summand<F>>(
        &self,
        alloc: Global,
        evals: &mut Vec<T>,
        work: &mut Work,
    ) -> Result<(), PolyError> {
        over_both!(self, domain => domain.ifft_counted(alloc, evals, work))
    }

    ghost lawful = { elim [
      | Radix2 d ↦ radix2_is_domain F.field F.adicity F.root F.equality_law d.coset.splits d.even
          d.coset.root_is d.coset.offset_not_zero
      | MixedRadix d ↦ mixed_radix_is_domain F.field F.adicity F.root F.equality_law d.coset.splits
          d.based d.coset.root_is d.coset.offset_not_zero
    ] };

    ghost equality = { elim [
      | Radix2 a ↦ elim [
        | Radix2 b ↦ same_domain radix2 F.root F.equality_law a.coset.root_is b.coset.root_is
        | MixedRadix b ↦ other_kind _ _ radix2_is_not_mixed
      ]
      | MixedRadix a ↦ elim [
        | Radix2 b ↦ other_kind _ _ (λ e. radix2_is_not_mixed (sym e))
        | MixedRadix b ↦ same_domain mixed_radix F.root F.equality_law a.coset.root_is b.coset.root_is
      ]
    ] };

    ghost clone_law = { λ a b e. e };

    ghost clones_law = { λ a. tt };

    ghost told = { λ mode. either_told either_of
        (coset_format all_fields radix2_coset (F.format mode) mode)
        (coset_format all_fields mixed_radix_coset (F.format mode) mode) general_domain radix2_domain
        mixed_radix_domain (elim [ Radix2 d ↦ refl | MixedRadix d ↦ refl ])
        (coset_told all_fields radix2_coset (F.format mode) (F.format_law mode) radix2_domain
        (F.elements_law mode).one_to_one (λ x y. one_domain radix2 F.root F.equality_law x.coset.root_is
        y.coset.root_is) mode)
        (coset_told all_fields mixed_radix_coset (F.format mode) (F.format_law mode) mixed_radix_domain
        (F.elements_law mode).one_to_one (λ x y. one_domain mixed_radix F.root F.equality_law
        x.coset.root_is y.coset.root_is) mode) };

    ghost memory_law = { λ m. m };

    ghost sizes = { general_sizes F.adicity };

    ghost one_size = { one_general_size F.adicity };
}

/// The elements of a domain of either kind in order, and then the end.
#[derive(Drop)]
pub struct GeneralElements<F: FftField>(Elements<F>);

impl<F: FftField> Iterator for GeneralElements<F> {
    ghost use Rattle.ark_fft.specs.Elements.{left};
    ghost use Rattle.std.specs.Iterator.{YieldsFirst, item_count};

    type Item = F;

    ghost next_gives = { YieldsFirst (λ e. left F.field e.0) };

    ghost remaining = { item_count (λ e. left F.field e.0) };

    fn next(&mut self) -> Option<F> {
        self.0.next()
    }
}
