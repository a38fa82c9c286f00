//! The fields of the integers modulo a prime below 2^64, on one word each.

ghost use Rattle.std.specs.Prelude.{◌≡◌, ℕ, true, false, ◌+◌, ◌*◌, ◌-◌, ◌%◌, ◌/◌, ◌<◌, ◌≤◌, ◌^◌, ◌↔◌, Option};
ghost use Rattle.std.specs.Prelude.{None, Some, IsSome, IsNone, IfSome, refl};
ghost use Rattle.std.proofs.Common.{◌∙◌};
ghost use Rattle.ark_math.specs.Field.{FieldOn, minus, natural};
ghost use Rattle.ark_math.specs.Module.{itself};
ghost use Rattle.ark_math.specs.Root.{adicity_of};
ghost use Rattle.ark_base.specs.Modulus.{IsModulus};

mod bytes;

use crate::prime_numbers::{PrimeNumbers, hexadecimal};
use ark_traits::{ConstantZero, DomainCoeff, FftField, Field, One, Zero};
use rand::{Rng, RngExt};
use std::alloc::{AllocError, Global};
use std::default::Default;
use std::fmt;
use std::fmt::{Display, Formatter, Write};
use std::marker::PhantomData;
use std::ops::{Add, AddAssign, Mul, MulAssign, Neg, Sub, SubAssign};

/// A prime below 2^64 and its constants. A field is added by one impl with two facts: `modulus` is a few
/// computed checks, and `together` the same line for every field.
pub trait PrimeModulus {
    ghost MODULUS: { ℕ };

    ghost GENERATOR: { ℕ };

    ghost TWO_ADICITY: { ℕ };

    ghost TWO_ADIC_ROOT_OF_UNITY: { ℕ };

    ghost SMALL_SUBGROUP_BASE: { Option ℕ };

    ghost SMALL_SUBGROUP_BASE_ADICITY: { Option ℕ };

    ghost LARGE_SUBGROUP_ROOT_OF_UNITY: { Option ℕ };

    ghost GREATEST_SIZE: { ℕ };

    ghost modulus: { IsModulus 64 MODULUS
        (adicity_of TWO_ADICITY SMALL_SUBGROUP_BASE SMALL_SUBGROUP_BASE_ADICITY)
        GENERATOR TWO_ADIC_ROOT_OF_UNITY LARGE_SUBGROUP_ROOT_OF_UNITY GREATEST_SIZE };

    ghost together: { IsSome SMALL_SUBGROUP_BASE ↔ IsSome SMALL_SUBGROUP_BASE_ADICITY };

    /// The prime.
    const MODULUS: u64;

    /// A number whose powers are all numbers below the prime but zero.
    const GENERATOR: u64;

    /// The greatest `a` of a size `2^a` that domains take. It may be less than the prime allows.
    const TWO_ADICITY: u32;

    /// The generator's power `(MODULUS - 1) / 2^TWO_ADICITY`.
    const TWO_ADIC_ROOT_OF_UNITY: u64;

    /// An odd prime `q` of further sizes `2^a * q^b`.
    const SMALL_SUBGROUP_BASE: Option<u32>;

    /// The greatest `b` of those sizes.
    const SMALL_SUBGROUP_BASE_ADICITY: Option<u32>;

    /// The generator's power `(MODULUS - 1) / GREATEST_SIZE`, where there is a base.
    const LARGE_SUBGROUP_ROOT_OF_UNITY: Option<u64>;

    /// `2^a * q^b` with both exponents at their greatest.
    const GREATEST_SIZE: u64;
}

/// An integer modulo `M`'s prime.
#[derive_where(Copy, Debug, PartialEq, Eq, PartialOrd, Ord, Hash)]
pub struct PrimeField<M: PrimeModulus> {
    value: u64,
    marker: PhantomData<M>,
    ghost reduced: { value < M.MODULUS },
}

impl<M: PrimeModulus> Clone for PrimeField<M> {
    ghost is_clone = { λ a b. b ≡ a };

    ghost is_infallible = { λ _. Unit {0} };

    fn clone(&self) -> Result<Self, AllocError> {
        Ok(*self)
    }
}

impl<M: PrimeModulus> PrimeField<M> {
    ghost use Rattle.ark_base.specs.Element.{field_of, number};

    /// The number below the modulus that the element is: it is so many ones added up.
    pub fn value(self) -> u64
        ensures number { result ≡ number self }
        ensures below { result < M.MODULUS }
        ensures natural { self ≡ natural (field_of M.modulus) result }
    {
        self.value
    }

    /// The element of a number below the modulus, and `None` exactly where it isn't below: without the
    /// division of `from`.
    #[inline(always)]
    pub fn from_value(value: u64) -> Option<Self>
        ensures some { IfSome result (λ x. number x ≡ value) }
        ensures none { IsNone result ↔ (M.MODULUS ≤ value) }
    {
        if value < M::MODULUS {
            Some(PrimeField {
                value,
                marker: PhantomData,
            })
        } else {
            None
        }
    }

    // The element of a word, by a division.
    fn reduce(value: u64) -> Self
        ensures { result.value ≡ value % M.MODULUS }
    {
        PrimeField {
            value: value % M::MODULUS,
            marker: PhantomData,
        }
    }

    // Whether the prime is one more than a power of two, and of half a word: products are then reduced
    // without a division.
    fn is_fermat() -> bool
        ensures small { result ≡ true → M.MODULUS ≤ 2 ^ 32 }
    {
        M::MODULUS <= 1 << 32 && (M::MODULUS - 1).is_power_of_two()
    }

    // Whether the prime is 2^64 - 2^32 + 1.
    fn is_goldilocks() -> bool
        ensures { result ≡ true → M.MODULUS ≡ 18446744069414584321 }
    {
        M::MODULUS == 18446744069414584321
    }

    // The residue of a product of two numbers below a prime of half a word. A Fermat prime's predecessor is
    // minus one, and quotient and rest by it are bits; modulo a small prime half the bits are enough.
    fn reduce_product(value: u64) -> Self
        requires half_word { M.MODULUS ≤ 2 ^ 32 }
        requires product { value ≤ (M.MODULUS - 1) * (M.MODULUS - 1) }
        ensures { result.value ≡ value % M.MODULUS }
    {
        if PrimeField::<M>::is_fermat() {
            let less = M::MODULUS - 1;
            PrimeField::reduce_once(value % less + (M::MODULUS - value / less))
        } else {
            PrimeField {
                value: if M::MODULUS <= 1 << 16 {
                    (value as u32 % M::MODULUS as u32) as u64
                } else {
                    value % M::MODULUS
                },
                marker: PhantomData,
            }
        }
    }

    // The residue of a product of two numbers below a prime of more than half a word.
    fn reduce_wide(value: u128) -> Self
        requires { value ≤ (M.MODULUS - 1) * (M.MODULUS - 1) }
        ensures { result.value ≡ value % M.MODULUS }
    {
        if PrimeField::<M>::is_goldilocks() {
            PrimeField::reduce_goldilocks((value % (1 << 64)) as u64, (value / (1 << 64)) as u64)
        } else {
            PrimeField {
                value: (value % M::MODULUS as u128) as u64,
                marker: PhantomData,
            }
        }
    }

    // The residue of `low + 2^64 * high` modulo 2^64 - 2^32 + 1, of which 2^64 leaves 2^32 - 1, and 2^96
    // minus one. `more` is below the prime, and `low + more` below twice the prime, so that one comparison is
    // enough.
    fn reduce_goldilocks(low: u64, high: u64) -> Self
        requires { M.MODULUS ≡ 18446744069414584321 }
        ensures { result.value ≡ (low + 2 ^ 64 * high) % M.MODULUS }
    {
        let (top, rest) = (high >> 32, high % (1 << 32));
        let (low, more) = if rest == 0 {
            (PrimeField::<M>::rest_of_difference(low, top), 0)
        } else {
            (low, rest * 4294967295 - top)
        };
        PrimeField {
            value: if low < M::MODULUS - more {
                low + more
            } else {
                low - (M::MODULUS - more)
            },
            marker: PhantomData,
        }
    }

    // The residue of a word less half a word, modulo 2^64 - 2^32 + 1.
    fn rest_of_difference(low: u64, top: u64) -> u64
        requires goldilocks { M.MODULUS ≡ 18446744069414584321 }
        requires half_word { top < 2 ^ 32 }
        ensures below { result < M.MODULUS }
        ensures residue { result ≡ (low + (M.MODULUS - top)) % M.MODULUS }
    {
        let low = if low < M::MODULUS {
            low
        } else {
            low - M::MODULUS
        };
        PrimeField::<M>::difference(low, top).value
    }

    // The residue of a number below twice the modulus, without a division.
    fn reduce_once(value: u64) -> Self
        requires { value < 2 * M.MODULUS }
        ensures { result.value ≡ value % M.MODULUS }
    {
        PrimeField {
            value: if PrimeField::<M>::is_below(value) {
                value
            } else {
                value - M::MODULUS
            },
            marker: PhantomData,
        }
    }

    // Whether a number below twice the modulus is below the modulus. Where products need no division, loops
    // are compiled to take two items at a time, and the sign of a difference is what those instructions
    // compare.
    fn is_below(value: u64) -> bool
        requires { value < 2 * M.MODULUS }
        ensures below { result ≡ true → value < M.MODULUS }
        ensures above { result ≡ false → M.MODULUS ≤ value }
    {
        if PrimeField::<M>::is_fermat() {
            value.wrapping_sub(M::MODULUS) >> 63 == 1
        } else {
            value < M::MODULUS
        }
    }

    // The residue of a difference, of numbers that may have a whole word: no sum passes the modulus.
    fn difference(left: u64, right: u64) -> Self
        requires left { left < M.MODULUS }
        requires right { right ≤ M.MODULUS }
        ensures { result.value ≡ (left + (M.MODULUS - right)) % M.MODULUS }
    {
        PrimeField {
            value: if left < right {
                left + (M::MODULUS - right)
            } else {
                left - right
            },
            marker: PhantomData,
        }
    }
}

/// The number below the prime, in decimal.
impl<M: PrimeModulus> Display for PrimeField<M> {
    ghost use Rattle.ark_base.specs.Element.{number};
    ghost use Rattle.ark_base.specs.Numerals.{decimal_text};

    ghost output = { λ x. Some (decimal_text (number x)) };

    fn fmt<W: Write>(&self, f: &mut Formatter<W>) -> fmt::Result {
        Display::fmt(&self.value, f)
    }
}

impl<M: PrimeModulus> Zero for PrimeField<M> {
    ghost use Rattle.ark_base.specs.Element.{field_of};

    ghost zero = { (field_of M.modulus).zero };

    fn zero() -> Self {
        PrimeField {
            value: 0,
            marker: PhantomData,
        }
    }

    fn is_zero(&self) -> bool {
        self.value == 0
    }
}

impl<M: PrimeModulus> ConstantZero for PrimeField<M> {
    ghost use Rattle.ark_base.specs.Element.{field_of};

    ghost ZERO = { (field_of M.modulus).zero };

    const ZERO: Self = PrimeField {
        value: 0,
        marker: PhantomData,
    };

    ghost zero_constant = { refl };
}

impl<M: PrimeModulus> One for PrimeField<M> {
    ghost use Rattle.ark_base.specs.Element.{field_of};

    ghost one = { (field_of M.modulus).one };

    fn one() -> Self {
        PrimeField {
            value: 1,
            marker: PhantomData,
        }
    }

    fn is_one(&self) -> bool {
        self.value == 1
    }
}

impl<M: PrimeModulus> Default for PrimeField<M> {
    ghost use Rattle.ark_base.specs.Element.{field_of};

    ghost is_default = { λ x. x ≡ (field_of M.modulus).zero };

    fn default() -> Self {
        Zero::zero()
    }
}

impl<M: PrimeModulus> From<u64> for PrimeField<M> {
    ghost use Rattle.ark_base.specs.Element.{residue_of};

    ghost from_gives = { λ n r. r ≡ residue_of M.modulus.prime n };

    /// The number modulo the prime.
    fn from(value: u64) -> Self {
        PrimeField::reduce(value)
    }
}

impl<M: PrimeModulus> Add<PrimeField<M>> for PrimeField<M> {
    ghost use Rattle.ark_base.specs.Element.{field_of};

    type Output = PrimeField<M>;

    ghost add_gives = { λ a b r. r ≡ (field_of M.modulus).plus a b };

    fn add(self, rhs: PrimeField<M>) -> PrimeField<M> {
        if M::MODULUS <= 1 << 32 {
            PrimeField::reduce_once(self.value + rhs.value)
        } else {
            PrimeField::difference(self.value, M::MODULUS - rhs.value)
        }
    }
}

impl<M: PrimeModulus> AddAssign<PrimeField<M>> for PrimeField<M> {
    ghost use Rattle.ark_base.specs.Element.{field_of};

    ghost add_assign_gives = { λ a b r. r ≡ (field_of M.modulus).plus a b };

    fn add_assign(&mut self, rhs: PrimeField<M>) {
        *self = *self + rhs;
    }
}

impl<M: PrimeModulus> Sub<PrimeField<M>> for PrimeField<M> {
    ghost use Rattle.ark_base.specs.Element.{field_of};

    type Output = PrimeField<M>;

    ghost sub_gives = { λ a b r. r ≡ minus (field_of M.modulus) a b };

    fn sub(self, rhs: PrimeField<M>) -> PrimeField<M> {
        if M::MODULUS <= 1 << 32 {
            PrimeField::reduce_once(self.value + (M::MODULUS - rhs.value))
        } else {
            PrimeField::difference(self.value, rhs.value)
        }
    }
}

impl<M: PrimeModulus> SubAssign<PrimeField<M>> for PrimeField<M> {
    ghost use Rattle.ark_base.specs.Element.{field_of};

    ghost sub_assign_gives = { λ a b r. r ≡ minus (field_of M.modulus) a b };

    fn sub_assign(&mut self, rhs: PrimeField<M>) {
        *self = *self - rhs;
    }
}

impl<M: PrimeModulus> Mul<PrimeField<M>> for PrimeField<M> {
    ghost use Rattle.ark_base.specs.Element.{field_of};

    type Output = PrimeField<M>;

    ghost mul_gives = { λ a b r. r ≡ (field_of M.modulus).times a b };

    fn mul(self, rhs: PrimeField<M>) -> PrimeField<M> {
        if M::MODULUS <= 1 << 32 {
            PrimeField::reduce_product(self.value as u32 as u64 * rhs.value as u32 as u64)
        } else {
            PrimeField::reduce_wide(self.value as u128 * rhs.value as u128)
        }
    }
}

impl<M: PrimeModulus> MulAssign<PrimeField<M>> for PrimeField<M> {
    ghost use Rattle.ark_base.specs.Element.{field_of};

    ghost mul_assign_gives = { λ a b r. r ≡ (field_of M.modulus).times a b };

    fn mul_assign(&mut self, rhs: PrimeField<M>) {
        *self = *self * rhs;
    }
}

impl<M: PrimeModulus> Neg for PrimeField<M> {
    ghost use Rattle.ark_base.specs.Element.{field_of};

    type Output = PrimeField<M>;

    ghost neg_gives = { λ a r. r ≡ (field_of M.modulus).negated a };

    fn neg(self) -> PrimeField<M> {
        PrimeField::reduce_once(M::MODULUS - self.value)
    }
}

impl<M: PrimeModulus> Field for PrimeField<M> {
    ghost use Rattle.rand_core.specs.Stream.{next_u64};
    ghost use Rattle.rand.specs.Draw.{Gives};
    ghost use Rattle.rand.specs.Uniform.{canon};
    ghost use Rattle.ark_base.specs.Element.{field_of, number};
    ghost use Rattle.ark_base.specs.ElementLaws.{prime_field_laws, prime_field_equals, natural_residue};
    ghost use Rattle.ark_base.specs.Element.{numbering};
    ghost use Rattle.ark_base.specs.ElementBytes.{residue_elements};
    ghost use Rattle.ark_base.specs.Widths.{width_of};
    ghost use Rattle.ark_math_formats.proofs.Formats.Modes.{one_format};

    ghost field = { field_of M.modulus };

    ghost element_size = { width_of M.MODULUS };

    ghost draws = { λ s x t. Gives (canon (2 ^ 64) next_u64 M.MODULUS) s (number x) t };

    /// By Euclid's algorithm. At each step a factor times the value leaves the remainder beside it.
    fn inverse(&self) -> Option<Self> {
        if self.value == 0 {
            return None;
        }
        let mut last = M::MODULUS;
        let mut last_factor: Self = Zero::zero();
        let mut rest = self.value;
        let mut factor: Self = One::one();
        'divide: while rest != 0 {
            let next_factor = last_factor - PrimeField::reduce_once(last / rest) * factor;
            let next = last % rest;
            last = rest;
            last_factor = factor;
            rest = next;
            factor = next_factor;
        }
        Some(last_factor)
    }

    /// A number below the prime: the one that Canon's method makes of the generator's next words of 64 bits,
    /// as `draws` says. No clause speaks of probabilities.
    fn rand<R: Rng>(rng: &mut R) -> Self {
        PrimeField {
            value: rng.random_range(0..M::MODULUS),
            marker: PhantomData,
        }
    }

    ghost field_laws = { prime_field_laws M.modulus.prime };

    ghost zero_law = { refl };

    ghost one_law = { refl };

    ghost equality_law = { prime_field_equals };

    ghost clone_law = { λ a b e. e };

    ghost default_law = { λ a e. e };

    ghost from_law = { λ n r fits e. natural_residue M.modulus.prime n r e };

    ghost can_add_law = { λ a b. tt };

    ghost add_law = { λ a b r e. e };

    ghost can_sub_law = { λ a b. tt };

    ghost sub_law = { λ a b r e. e };

    ghost can_mul_law = { λ a b. tt };

    ghost mul_law = { λ a b r e. e };

    ghost can_add_assign_law = { λ a b. tt };

    ghost add_assign_law = { λ a b r e. e };

    ghost can_sub_assign_law = { λ a b. tt };

    ghost sub_assign_law = { λ a b r e. e };

    ghost can_mul_assign_law = { λ a b. tt };

    ghost mul_assign_law = { λ a b r e. e };

    ghost can_neg_law = { λ a. tt };

    ghost neg_law = { λ a r e. e };

    ghost elements_law = { λ _. residue_elements numbering M.modulus.small };

    ghost modes_law = { λ _ _. one_format _ };

    ghost memory_law = { λ m. m };
}

impl<M: PrimeModulus> DomainCoeff<PrimeField<M>> for PrimeField<M> {
    ghost use Rattle.ark_base.specs.Element.{field_of};
    ghost use Rattle.ark_base.specs.ElementLaws.{prime_field_laws, prime_module_laws, prime_field_equals};

    ghost Meaning = { Self };

    ghost meaning = { λ x. x };

    ghost group = { itself (field_of M.modulus) };

    ghost module_laws = { prime_module_laws M.modulus.prime };

    ghost equality_meaning = { prime_field_equals };

    ghost clone_meaning = { λ a b e. e };

    ghost zero_meaning = { refl };

    ghost can_add_meaning = { λ a b. tt };

    ghost add_meaning = { λ a b r e. e };

    ghost can_sub_meaning = { λ a b. tt };

    ghost sub_meaning = { λ a b r e. e };

    ghost can_add_assign_meaning = { λ a b. tt };

    ghost add_assign_meaning = { λ a b r e. e };

    ghost can_sub_assign_meaning = { λ a b. tt };

    ghost sub_assign_meaning = { λ a b r e. e };

    ghost can_mul_assign_meaning = { λ a f. tt };

    ghost mul_assign_meaning = { λ a f r e. e ∙ (prime_field_laws M.modulus.prime).times_comm a f };
}

impl<M: PrimeModulus> FftField for PrimeField<M> {
    ghost use Rattle.ark_base.specs.Element.{prime_root, generator_of, two_adic_root, large_root};
    ghost use Rattle.ark_base.specs.ElementLaws.{prime_roots, generator_not_zero, prime_greatest};
    ghost use Rattle.ark_base.specs.ElementLaws.{prime_itself};

    ghost adicity = { adicity_of M.TWO_ADICITY M.SMALL_SUBGROUP_BASE M.SMALL_SUBGROUP_BASE_ADICITY };

    ghost root = { prime_root M.modulus };

    const GENERATOR: Self = PrimeField {
        value: M::GENERATOR,
        marker: PhantomData,
    };

    ghost GENERATOR = { generator_of M.modulus };

    const TWO_ADICITY: u32 = M::TWO_ADICITY;

    ghost TWO_ADICITY = { M.TWO_ADICITY };

    const TWO_ADIC_ROOT_OF_UNITY: Self = PrimeField {
        value: M::TWO_ADIC_ROOT_OF_UNITY,
        marker: PhantomData,
    };

    ghost TWO_ADIC_ROOT_OF_UNITY = { two_adic_root M.modulus };

    const SMALL_SUBGROUP_BASE: Option<u32> = M::SMALL_SUBGROUP_BASE;

    ghost SMALL_SUBGROUP_BASE = { M.SMALL_SUBGROUP_BASE };

    const SMALL_SUBGROUP_BASE_ADICITY: Option<u32> = M::SMALL_SUBGROUP_BASE_ADICITY;

    ghost SMALL_SUBGROUP_BASE_ADICITY = { M.SMALL_SUBGROUP_BASE_ADICITY };

    const LARGE_SUBGROUP_ROOT_OF_UNITY: Option<Self> = match M::LARGE_SUBGROUP_ROOT_OF_UNITY {
        Some(value) => Some(PrimeField {
            value,
            marker: PhantomData,
        }),
        None => None,
    };

    ghost LARGE_SUBGROUP_ROOT_OF_UNITY = { large_root M.modulus };

    fn get_root_of_unity(n: u64) -> Option<Self> {
        if n == 0 {
            return None;
        }
        if M::GREATEST_SIZE % n != 0 {
            return None;
        }
        Some(Self::GENERATOR.pow((M::MODULUS - 1) / n))
    }

    ghost adicity_law = { refl };

    ghost together_law = { M.together };

    ghost roots_law = { prime_roots _ _ M.modulus };

    ghost greatest_law = { prime_greatest _ _ M.modulus };

    ghost generator_law = { generator_not_zero _ _ M.modulus };

    ghost itself_law = { prime_itself _ _ M.modulus };
}

impl<M: PrimeModulus> PrimeNumbers for PrimeField<M> {
    ghost use Rattle.ark_base.specs.Element.{numbering};

    ghost modulus = { M.MODULUS };

    ghost prime = { M.modulus.prime };

    ghost numbering = { numbering };

    ghost generator = { M.GENERATOR };

    fn to_hex(self, alloc: Global) -> Result<String, AllocError> {
        hexadecimal(alloc, self.value)
    }

    ghost field_law = { refl };

    ghost generator_law = { refl };

    ghost root_law = { λ n. refl };

    ghost display_law = { λ x. refl };
}
