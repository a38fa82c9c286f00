//! What all kinds of domains keep: a supported size, its root of unity, an offset, and their inverses.

ghost use Rattle.std.specs.Prelude.{◌≡◌, ◌↔◌, ◌⊎◌, ℕ, true, false, IsNone, IfSome};
ghost use Rattle.ark_math.specs.Field.{power, natural};
ghost use Rattle.std.proofs.Props.{props};
ghost use Rattle.ark_math.specs.Root.{Splits, IsSupported};
ghost use Rattle.ark_math.specs.Domain.{IsExponentOfTwo};

mod bytes;

use crate::domain::mixed_radix::odd_base;
use ark_traits::{FftField, k_adicity};
use std::alloc::AllocError;

/// The elements `offset * group_gen^i` of a supported size. All else follows from the size and the offset.
#[derive_where(Copy, Debug, PartialEq, Eq, Hash; F)]
pub struct Coset<F: FftField> {
    pub size: u64,
    /// The exponent of two in the size.
    #[derive_where(skip(EqHashOrd))]
    pub log_size_of_group: u32,
    /// The exponent of the field's odd base in the size.
    #[derive_where(skip(EqHashOrd))]
    pub odd_exponent: u32,
    #[derive_where(skip(EqHashOrd))]
    pub size_as_field_element: F,
    #[derive_where(skip(EqHashOrd))]
    pub size_inv: F,
    #[derive_where(skip(EqHashOrd))]
    pub group_gen: F,
    #[derive_where(skip(EqHashOrd))]
    pub group_gen_inv: F,
    pub offset: F,
    #[derive_where(skip(EqHashOrd))]
    pub offset_inv: F,
    #[derive_where(skip(EqHashOrd))]
    pub offset_pow_size: F,
    ghost splits: { Splits F.adicity size log_size_of_group odd_exponent } by { Prim.hlevel props },
    ghost size_element_is: { F.eq size_as_field_element (natural F.field size) ≡ true },
    ghost size_inverse_is: { F.eq (F.field.times size_as_field_element size_inv) F.field.one ≡ true },
    ghost root_is: { F.eq group_gen (F.root size) ≡ true },
    ghost root_inverse_is: { F.eq (F.field.times group_gen group_gen_inv) F.field.one ≡ true },
    ghost offset_not_zero: { F.eq offset F.field.zero ≡ false },
    ghost offset_inverse_is: { F.eq (F.field.times offset offset_inv) F.field.one ≡ true },
    ghost offset_power_is: { F.eq offset_pow_size (power F.field offset size) ≡ true },
}

impl<F: FftField> Clone for Coset<F> {
    ghost is_clone = { λ a b. b ≡ a };

    ghost is_infallible = { λ _. Unit {0} };

    fn clone(&self) -> Result<Self, AllocError> {
        Ok(*self)
    }
}

// The exponents of two and of the field's odd base in a supported size.
fn exponents<F: FftField>(size: u64) -> (u32, u32)
    requires { IsSupported F.adicity size }
    ensures { Splits F.adicity size result.0 result.1 }
{
    let twos = k_adicity(2, size);
    match odd_base::<F>() {
        Some((base, _)) => (twos, k_adicity(base as u64, size >> twos)),
        None => (twos, 0),
    }
}

impl<F: FftField> Coset<F> {
    /// The subgroup of this size.
    pub fn subgroup(size: u64, log_size_of_group: u32, odd_exponent: u32) -> Coset<F>
        requires { Splits F.adicity size log_size_of_group odd_exponent }
        ensures size { result.size ≡ size }
        ensures twos { result.log_size_of_group ≡ log_size_of_group }
        ensures odds { result.odd_exponent ≡ odd_exponent }
        ensures offset { result.offset ≡ F.field.one }
    {
        let group_gen = F::get_root_of_unity(size).unwrap();
        Coset::of_root(size, log_size_of_group, odd_exponent, group_gen)
    }

    // The subgroup of this size, with its root.
    fn of_root(size: u64, log_size_of_group: u32, odd_exponent: u32, group_gen: F) -> Coset<F>
        requires splits { Splits F.adicity size log_size_of_group odd_exponent }
        requires root { group_gen ≡ F.root size }
        ensures size { result.size ≡ size }
        ensures twos { result.log_size_of_group ≡ log_size_of_group }
        ensures odds { result.odd_exponent ≡ odd_exponent }
        ensures offset { result.offset ≡ F.field.one }
    {
        let size_as_field_element = F::from(size);
        Coset {
            size,
            log_size_of_group,
            odd_exponent,
            size_as_field_element,
            size_inv: size_as_field_element.inverse().unwrap(),
            group_gen,
            group_gen_inv: group_gen.inverse().unwrap(),
            offset: F::one(),
            offset_inv: F::one(),
            offset_pow_size: F::one(),
        }
    }

    /// The elements of this size with this offset, and `None` exactly where the size isn't supported or the offset is
    /// zero. It takes one root of unity and three inverses.
    pub fn of_size(size: u64, offset: F) -> Option<Coset<F>>
        ensures size { IfSome result (λ c. c.size ≡ size) }
        ensures offset { IfSome result (λ c. c.offset ≡ offset) }
        ensures none { IsNone result ↔ (¬ IsSupported F.adicity size) ⊎ (offset ≡ F.field.zero) }
    {
        let group_gen = F::get_root_of_unity(size)?;
        let (twos, odds) = exponents::<F>(size);
        Coset::of_root(size, twos, odds, group_gen).with_offset(offset)
    }

    /// The elements of the same size with this offset, and `None` exactly for zero.
    pub fn with_offset(&self, offset: F) -> Option<Coset<F>>
        ensures size { IfSome result (λ c. c.size ≡ self.now.size) }
        ensures twos { IfSome result (λ c. c.log_size_of_group ≡ self.now.log_size_of_group) }
        ensures odds { IfSome result (λ c. c.odd_exponent ≡ self.now.odd_exponent) }
        ensures root { IfSome result (λ c. c.group_gen ≡ self.now.group_gen) }
        ensures offset { IfSome result (λ c. c.offset ≡ offset) }
        ensures none { IsNone result ↔ (offset ≡ F.field.zero) }
    {
        let offset_inv = offset.inverse()?;
        Some(Coset {
            size: self.size,
            log_size_of_group: self.log_size_of_group,
            odd_exponent: self.odd_exponent,
            size_as_field_element: self.size_as_field_element,
            size_inv: self.size_inv,
            group_gen: self.group_gen,
            group_gen_inv: self.group_gen_inv,
            offset,
            offset_inv,
            offset_pow_size: offset.pow(self.size),
        })
    }

    /// The exponent of two in the size.
    pub fn log_size_of_group(&self) -> u64
        ensures { IsExponentOfTwo self.now.size result }
    {
        self.log_size_of_group as u64
    }

    /// The size, as the sum of that many ones.
    pub fn size_as_field_element(&self) -> F
        ensures { result ≡ natural F.field self.now.size }
    {
        self.size_as_field_element
    }

    /// The inverse of the size.
    pub fn size_inv(&self) -> F
        ensures { F.field.times (natural F.field self.now.size) result ≡ F.field.one }
    {
        self.size_inv
    }

    /// The inverse of the root.
    pub fn group_gen_inv(&self) -> F
        ensures { F.field.times self.now.group_gen result ≡ F.field.one }
    {
        self.group_gen_inv
    }

    /// The inverse of the offset.
    pub fn offset_inv(&self) -> F
        ensures { F.field.times self.now.offset result ≡ F.field.one }
    {
        self.offset_inv
    }

    /// The offset to the power of the size.
    pub fn offset_pow_size(&self) -> F
        ensures { result ≡ power F.field self.now.offset self.now.size }
    {
        self.offset_pow_size
    }
}
