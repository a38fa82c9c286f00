//! One list transformed, or taken back.

ghost use Rattle.std.specs.Prelude.{◌≡◌, map, length, OnOk, IsOkUnless};
ghost use Rattle.ark_math.specs.Domain.{radix2};
ghost use Rattle.ark_fft.specs.Coset.{coset_domain};
ghost use Rattle.ark_fft_parts.specs.Counting.{GrowsByTransforms};

use ark_fft::domain::{Coset, radix2};
use ark_traits::{DomainCoeff, FftField, PolyError, Work};
use std::alloc::Global;

/// Which way a part goes: from coefficients to values, or back.
#[derive(Clone, Copy, Debug, PartialEq, Eq)]
pub enum Way {
    Forward,
    Back,
}

ghost use Rattle.ark_fft_parts.specs.Ways.{IsMade};

/// The transform of a list of the domain's size, or its inverse, in place.
pub fn pass<F: FftField, T: DomainCoeff<F>>(
    coset: &Coset<F>,
    way: Way,
    alloc: Global,
    list: &mut Vec<T>,
    work: &mut Work,
) -> Result<(), PolyError>
    requires even { coset.now.odd_exponent ≡ 0 }
    requires size { length list.old.items ≡ coset.now.size }
    ensures made { OnOk result (IsMade F.field T.group way (coset_domain radix2 coset.now)
        (map T.meaning list.old.items) (map T.meaning list.new.items)) }
    ensures size { OnOk result (length list.new.items ≡ coset.now.size) }
    ensures counted { OnOk result (GrowsByTransforms 1 coset.now.size work.old work.new) }
    ensures memory { IsOkUnless result PolyError.Memory }
{
    match way {
        Way::Forward => radix2::fft::fft_counted(coset, alloc, list, work),
        Way::Back => radix2::fft::ifft_counted(coset, alloc, list, work),
    }
}
