//! The fields of the integers modulo an odd prime below 2^31, on words of 32 bits.

ghost use Rattle.std.specs.Prelude.{◌≡◌, ℕ, ◌<◌, ◌*◌, ◌^◌, ◌%◌, ◌≤◌, ◌↔◌, Option, IsSome, IsNone, IfSome, refl};
ghost use Rattle.ark_math.specs.Field.{natural, minus};
ghost use Rattle.std.proofs.Common.{◌∙◌};
ghost use Rattle.ark_math.specs.Module.{itself};
ghost use Rattle.ark_math.specs.Root.{adicity_of};
ghost use Rattle.ark_base.specs.Modulus32.{IsModulus32};

mod bytes;

use crate::montgomery32;
use crate::montgomery32::{negated, plus, product, reduce_sum};
use crate::prime_numbers::{PrimeNumbers, hexadecimal};
use ark_traits::{ConstantZero, DomainCoeff, FftField, Field, One, Zero};
use rand::{Rng, RngExt};
use std::alloc::{AllocError, Global};
use std::cmp::Ordering;
use std::default::Default;
use std::fmt;
use std::fmt::{Debug, Display, Formatter, Write};
use std::hash::{Hash, Hasher};
use std::marker::PhantomData;
use std::ops::{Add, AddAssign, Mul, MulAssign, Neg, Sub, SubAssign};

/// An odd prime below 2^31 and its constants. A field is added by one impl with two facts: `modulus` is a few
/// computed checks, and `together` the same line for every field.
pub trait PrimeModulus32 {
    ghost MODULUS: { ℕ };

    ghost GENERATOR: { ℕ };

    ghost TWO_ADICITY: { ℕ };

    ghost TWO_ADIC_ROOT_OF_UNITY: { ℕ };

    ghost SMALL_SUBGROUP_BASE: { Option ℕ };

    ghost SMALL_SUBGROUP_BASE_ADICITY: { Option ℕ };

    ghost LARGE_SUBGROUP_ROOT_OF_UNITY: { Option ℕ };

    ghost GREATEST_SIZE: { ℕ };

    ghost NEGATED_INVERSE: { ℕ };

    ghost modulus: { IsModulus32 MODULUS
        (adicity_of TWO_ADICITY SMALL_SUBGROUP_BASE SMALL_SUBGROUP_BASE_ADICITY)
        GENERATOR TWO_ADIC_ROOT_OF_UNITY LARGE_SUBGROUP_ROOT_OF_UNITY GREATEST_SIZE NEGATED_INVERSE };

    ghost together: { IsSome SMALL_SUBGROUP_BASE ↔ IsSome SMALL_SUBGROUP_BASE_ADICITY };

    /// The prime.
    const MODULUS: u32;

    /// A number whose powers are all numbers below the prime but zero.
    const GENERATOR: u32;

    /// The greatest `a` of a size `2^a` that domains take. It may be less than the prime allows.
    const TWO_ADICITY: u32;

    /// The generator's power `(MODULUS - 1) / 2^TWO_ADICITY`.
    const TWO_ADIC_ROOT_OF_UNITY: u32;

    /// An odd prime `q` of further sizes `2^a * q^b`.
    const SMALL_SUBGROUP_BASE: Option<u32>;

    /// The greatest `b` of those sizes.
    const SMALL_SUBGROUP_BASE_ADICITY: Option<u32>;

    /// The generator's power `(MODULUS - 1) / GREATEST_SIZE`, where there is a base.
    const LARGE_SUBGROUP_ROOT_OF_UNITY: Option<u32>;

    /// `2^a * q^b` with both exponents at their greatest.
    const GREATEST_SIZE: u64;

    /// Minus the inverse of the prime, modulo 2^32.
    const NEGATED_INVERSE: u32;
}

/// An integer modulo `M`'s prime, kept in Montgomery's form: the word is the integer times 2^32, modulo the
/// prime. Contracts see the integer alone.
#[derive_where(Copy)]
pub struct PrimeField32<M: PrimeModulus32> {
    word: u32,
    marker: PhantomData<M>,
    ghost reduced: { word < M.MODULUS },
}

impl<M: PrimeModulus32> Clone for PrimeField32<M> {
    ghost is_clone = { λ a b. b ≡ a };

    ghost is_infallible = { λ _. Unit {0} };

    fn clone(&self) -> Result<Self, AllocError> {
        Ok(*self)
    }
}

impl<M: PrimeModulus32> PrimeField32<M> {
    ghost use Rattle.rand_core.specs.Stream.{next_u64};
    ghost use Rattle.rand.specs.Draw.{Gives};
    ghost use Rattle.rand.specs.Uniform.{canon};
    ghost use Rattle.ark_base.specs.Element32.{number, field_of, unit};

    /// The number below the modulus that the element is: it is so many ones added up.
    pub fn value(self) -> u32
        ensures number { result ≡ number self }
        ensures below { result < M.MODULUS }
        ensures natural { self ≡ natural (field_of M.modulus) result }
    {
        PrimeField32::<M>::montgomery_product(self.word, 1)
    }

    /// The element of a number below the prime, and `None` exactly where it isn't below: without the
    /// divisions of `from`.
    #[inline(always)]
    pub fn from_value(value: u32) -> Option<Self>
        ensures some { IfSome result (λ x. number x ≡ value) }
        ensures none { IsNone result ↔ (M.MODULUS ≤ value) }
    {
        if value >= M::MODULUS {
            return None;
        }
        let form = PrimeField32 {
            word: value,
            marker: PhantomData,
        };
        Some(form * PrimeField32::<M>::reduce(1 << 32))
    }

    /// The sum of four products, which is reduced once.
    #[inline(always)]
    pub fn sum_of_four_products(
        first: (Self, Self),
        second: (Self, Self),
        third: (Self, Self),
        fourth: (Self, Self),
    ) -> Self
        ensures { result ≡ (field_of M.modulus).plus
            ((field_of M.modulus).plus ((field_of M.modulus).times first.0 first.1)
            ((field_of M.modulus).times second.0 second.1))
            ((field_of M.modulus).plus ((field_of M.modulus).times third.0 third.1)
            ((field_of M.modulus).times fourth.0 fourth.1)) }
    {
        let left = first.0.word_product(first.1) + second.0.word_product(second.1);
        let right = third.0.word_product(third.1) + fourth.0.word_product(fourth.1);
        PrimeField32::of_word_products(left + right)
    }

    // The sum of products whose words' products add up to this.
    #[inline(always)]
    fn of_word_products(sum: u64) -> Self
        requires four { sum < 4 * (2 ^ 31 * M.MODULUS) }
        ensures residue { (2 ^ 32 * result.word) % M.MODULUS ≡ sum % M.MODULUS }
    {
        PrimeField32 {
            word: reduce_sum(sum, M::MODULUS, M::NEGATED_INVERSE),
            marker: PhantomData,
        }
    }

    // The product of the words, not reduced.
    #[inline(always)]
    fn word_product(self, rhs: Self) -> u64
        ensures product { result ≡ self.word * rhs.word }
        ensures below { result < 2 ^ 31 * M.MODULUS }
    {
        self.word as u64 * rhs.word as u64
    }

    /// The element whose product with `unit` has this number, and `None` exactly where that isn't below the
    /// prime. It takes no product: for maps that keep multiples, such as transforms, this is the number itself.
    #[inline(always)]
    pub fn from_scaled(value: u32) -> Option<Self>
        ensures some { IfSome result (λ x. number ((field_of M.modulus).times (unit M.modulus) x) ≡ value) }
        ensures none { IsNone result ↔ (M.MODULUS ≤ value) }
    {
        if value >= M::MODULUS {
            return None;
        }
        Some(PrimeField32 {
            word: value,
            marker: PhantomData,
        })
    }

    /// The number of the element's product with `unit`.
    #[inline(always)]
    pub fn scaled(self) -> u32
        ensures { result ≡ number ((field_of M.modulus).times (unit M.modulus) self) }
    {
        self.word
    }

    // The element of a word, by a division.
    const fn reduce(value: u64) -> Self
        ensures { number result ≡ value % M.MODULUS }
    {
        PrimeField32 {
            word: ((value % M::MODULUS as u64) * (1 << 32) % M::MODULUS as u64) as u32,
            marker: PhantomData,
        }
    }

    // A number below the prime.
    fn draw<R: Rng>(rng: &mut R) -> u64
        ensures below { result < M.MODULUS }
        ensures drawn { Gives (canon (2 ^ 64) next_u64 M.MODULUS) (R.stream rng.old) result (R.stream rng.new) }
    {
        rng.random_range(0..M::MODULUS as u64)
    }

    // Montgomery's product modulo the prime.
    #[inline(always)]
    fn montgomery_product(a: u32, b: u32) -> u32
        requires { a < M.MODULUS }
        ensures below { result < M.MODULUS }
        ensures residue { (2 ^ 32 * result) % M.MODULUS ≡ (a * b) % M.MODULUS }
    {
        product(a, b, M::MODULUS, M::NEGATED_INVERSE)
    }
}

impl<M: PrimeModulus32> PartialEq for PrimeField32<M> {
    ghost use Rattle.std.specs.Prelude.{nat_eq};
    ghost use Rattle.std.specs.Ordering.{on};
    ghost use Rattle.std.specs.Cmp.{on_per, partial_equiv_from_equiv, nat_eq_equiv};
    ghost use Rattle.ark_base.specs.Element32.{number};

    ghost eq = { on number nat_eq };

    ghost laws = { on_per number (partial_equiv_from_equiv nat_eq_equiv) };

    fn eq(&self, other: &Self) -> bool {
        self.word == other.word
    }
}

impl<M: PrimeModulus32> Eq for PrimeField32<M> {
    ghost use Rattle.std.specs.Cmp.{on_equiv, nat_eq_equiv};
    ghost use Rattle.ark_base.specs.Element32.{number};

    ghost laws = { on_equiv number nat_eq_equiv };
}

/// The order of the numbers below the prime.
impl<M: PrimeModulus32> Ord for PrimeField32<M> {
    ghost use Rattle.std.proofs.Common.{rules};
    ghost use Rattle.std.specs.Cmp.Rules.{comparing};
    ghost use Rattle.std.specs.Ordering.{on, nat_cmp};
    ghost use Rattle.ark_base.specs.Element32.{number};

    ghost cmp = { on number nat_cmp };

    ghost total = { Prim.search (comparing, rules) };

    ghost matches_partial_cmp = { Prim.search (comparing, rules) };

    ghost matches_eq = { Prim.search (comparing, rules) };

    fn cmp(&self, other: &Self) -> Ordering {
        self.value().cmp(&other.value())
    }
}

impl<M: PrimeModulus32> PartialOrd for PrimeField32<M> {
    ghost use Rattle.std.proofs.Common.{rules};
    ghost use Rattle.std.specs.Cmp.{partial_order_from_own_ties};
    ghost use Rattle.std.specs.Cmp.Rules.{comparing};
    ghost use Rattle.std.specs.Ordering.{on, nat_cmp, as_partial_cmp};
    ghost use Rattle.ark_base.specs.Element32.{number};

    ghost partial_cmp = { as_partial_cmp (on number nat_cmp) };

    ghost laws = { partial_order_from_own_ties (Prim.search (comparing, rules)) (Prim.search (comparing, rules)) };

    fn partial_cmp(&self, other: &Self) -> Option<Ordering> {
        Some(self.cmp(other))
    }
}

/// The number below the prime.
impl<M: PrimeModulus32> Debug for PrimeField32<M> {
    fn fmt<W: Write>(&self, f: &mut Formatter<W>) -> fmt::Result {
        write!(f, "{}", self.value())
    }
}

/// The number below the prime, in decimal.
impl<M: PrimeModulus32> Display for PrimeField32<M> {
    ghost use Rattle.std.specs.Prelude.{Some};
    ghost use Rattle.ark_base.specs.Element32.{number};
    ghost use Rattle.ark_base.specs.Numerals.{decimal_text};

    ghost output = { λ x. Some (decimal_text (number x)) };

    fn fmt<W: Write>(&self, f: &mut Formatter<W>) -> fmt::Result {
        Display::fmt(&self.value(), f)
    }
}

impl<M: PrimeModulus32> Hash for PrimeField32<M> {
    ghost use Rattle.ark_base.specs.Element32.{number};
    ghost use Rattle.ark_base.specs.Element32Laws.{same_input};

    ghost hash_input = { λ x. ⟦<u64 as Hash>⟧.hash_input (number x) };

    ghost respects_eq = { same_input ⟦<u64 as Hash>⟧.hash_input };

    fn hash<H: Hasher>(&self, state: &mut H) {
        (self.value() as u64).hash(state);
    }
}

impl<M: PrimeModulus32> Zero for PrimeField32<M> {
    ghost use Rattle.ark_base.specs.Element32.{field_of};

    ghost zero = { (field_of M.modulus).zero };

    fn zero() -> Self {
        PrimeField32 {
            word: 0,
            marker: PhantomData,
        }
    }

    fn is_zero(&self) -> bool {
        *self == Self::zero()
    }
}

impl<M: PrimeModulus32> ConstantZero for PrimeField32<M> {
    ghost use Rattle.ark_base.specs.Element32.{field_of};

    ghost ZERO = { (field_of M.modulus).zero };

    const ZERO: Self = PrimeField32 {
        word: 0,
        marker: PhantomData,
    };

    ghost zero_constant = { refl };
}

impl<M: PrimeModulus32> One for PrimeField32<M> {
    ghost use Rattle.ark_base.specs.Element32.{field_of};

    ghost one = { (field_of M.modulus).one };

    fn one() -> Self {
        PrimeField32::reduce(1)
    }

    fn is_one(&self) -> bool {
        *self == Self::one()
    }
}

impl<M: PrimeModulus32> Default for PrimeField32<M> {
    ghost use Rattle.ark_base.specs.Element32.{field_of};

    ghost is_default = { λ x. x ≡ (field_of M.modulus).zero };

    fn default() -> Self {
        Zero::zero()
    }
}

impl<M: PrimeModulus32> From<u64> for PrimeField32<M> {
    ghost use Rattle.ark_base.specs.Residues.{residue_of};
    ghost use Rattle.ark_base.specs.Element32.{numbering};

    ghost from_gives = { λ n r. r ≡ residue_of (numbering M.modulus) M.modulus.numbers.prime n };

    /// The number modulo the prime.
    fn from(value: u64) -> Self {
        PrimeField32::reduce(value)
    }
}

impl<M: PrimeModulus32> Add<PrimeField32<M>> for PrimeField32<M> {
    ghost use Rattle.ark_base.specs.Element32.{field_of};

    type Output = PrimeField32<M>;

    ghost add_gives = { λ a b r. r ≡ (field_of M.modulus).plus a b };

    #[inline(always)]
    fn add(self, rhs: PrimeField32<M>) -> PrimeField32<M> {
        PrimeField32 {
            word: plus(self.word, rhs.word, M::MODULUS),
            marker: PhantomData,
        }
    }
}

impl<M: PrimeModulus32> AddAssign<PrimeField32<M>> for PrimeField32<M> {
    ghost use Rattle.ark_base.specs.Element32.{field_of};

    ghost add_assign_gives = { λ a b r. r ≡ (field_of M.modulus).plus a b };

    #[inline(always)]
    fn add_assign(&mut self, rhs: PrimeField32<M>) {
        *self = *self + rhs;
    }
}

impl<M: PrimeModulus32> Sub<PrimeField32<M>> for PrimeField32<M> {
    ghost use Rattle.ark_base.specs.Element32.{field_of};

    type Output = PrimeField32<M>;

    ghost sub_gives = { λ a b r. r ≡ minus (field_of M.modulus) a b };

    #[inline(always)]
    fn sub(self, rhs: PrimeField32<M>) -> PrimeField32<M> {
        PrimeField32 {
            word: montgomery32::minus(self.word, rhs.word, M::MODULUS),
            marker: PhantomData,
        }
    }
}

impl<M: PrimeModulus32> SubAssign<PrimeField32<M>> for PrimeField32<M> {
    ghost use Rattle.ark_base.specs.Element32.{field_of};

    ghost sub_assign_gives = { λ a b r. r ≡ minus (field_of M.modulus) a b };

    #[inline(always)]
    fn sub_assign(&mut self, rhs: PrimeField32<M>) {
        *self = *self - rhs;
    }
}

impl<M: PrimeModulus32> Mul<PrimeField32<M>> for PrimeField32<M> {
    ghost use Rattle.ark_base.specs.Element32.{field_of};

    type Output = PrimeField32<M>;

    ghost mul_gives = { λ a b r. r ≡ (field_of M.modulus).times a b };

    #[inline(always)]
    fn mul(self, rhs: PrimeField32<M>) -> PrimeField32<M> {
        PrimeField32 {
            word: PrimeField32::<M>::montgomery_product(self.word, rhs.word),
            marker: PhantomData,
        }
    }
}

impl<M: PrimeModulus32> MulAssign<PrimeField32<M>> for PrimeField32<M> {
    ghost use Rattle.ark_base.specs.Element32.{field_of};

    ghost mul_assign_gives = { λ a b r. r ≡ (field_of M.modulus).times a b };

    #[inline(always)]
    fn mul_assign(&mut self, rhs: PrimeField32<M>) {
        *self = *self * rhs;
    }
}

impl<M: PrimeModulus32> Neg for PrimeField32<M> {
    ghost use Rattle.ark_base.specs.Element32.{field_of};

    type Output = PrimeField32<M>;

    ghost neg_gives = { λ a r. r ≡ (field_of M.modulus).negated a };

    #[inline(always)]
    fn neg(self) -> PrimeField32<M> {
        PrimeField32 {
            word: negated(self.word, M::MODULUS),
            marker: PhantomData,
        }
    }
}

impl<M: PrimeModulus32> Field for PrimeField32<M> {
    ghost use Rattle.rand_core.specs.Stream.{next_u64};
    ghost use Rattle.rand.specs.Draw.{Gives};
    ghost use Rattle.rand.specs.Uniform.{canon};
    ghost use Rattle.ark_base.specs.Element32.{numbering, field_of, number};
    ghost use Rattle.ark_base.specs.Element32Laws.{equal_elements};
    ghost use Rattle.ark_base.specs.ResiduesLaws.{residues_laws, residue_is_natural};
    ghost use Rattle.ark_base.specs.ElementBytes.{residue_elements};
    ghost use Rattle.ark_base.specs.Modulus32Laws.{small_word};
    ghost use Rattle.ark_base.specs.Widths.{width_of};
    ghost use Rattle.ark_math_formats.proofs.Formats.Modes.{one_format};

    ghost field = { field_of M.modulus };

    ghost element_size = { width_of M.MODULUS };

    ghost draws = { λ s x t. Gives (canon (2 ^ 64) next_u64 M.MODULUS) s (number x) t };

    /// By Fermat's little theorem: the power to the prime less two.
    fn inverse(&self) -> Option<Self> {
        if self.is_zero() {
            None
        } else {
            Some(self.pow(M::MODULUS as u64 - 2))
        }
    }

    /// A number below the prime: the one that Canon's method makes of the generator's next words of 64 bits,
    /// as `draws` says. No clause speaks of probabilities.
    fn rand<R: Rng>(rng: &mut R) -> Self {
        PrimeField32::reduce(PrimeField32::<M>::draw(rng))
    }

    ghost field_laws = { residues_laws (numbering M.modulus) M.modulus.numbers.prime };

    ghost zero_law = { refl };

    ghost one_law = { refl };

    ghost equality_law = { equal_elements M.modulus };

    ghost clone_law = { λ a b e. e };

    ghost default_law = { λ a e. e };

    ghost from_law = { λ n r fits e. residue_is_natural (numbering M.modulus) M.modulus.numbers.prime n r e };

    ghost can_add_law = { λ a b. tt };

    ghost add_law = { λ a b r e. e };

    ghost can_sub_law = { λ a b. tt };

    ghost sub_law = { λ a b r e. e };

    ghost can_mul_law = { λ a b. tt };

    ghost mul_law = { λ a b r e. e };

    ghost can_add_assign_law = { λ a b. tt };

    ghost add_assign_law = { λ a b r e. e };

    ghost can_sub_assign_law = { λ a b. tt };

    ghost sub_assign_law = { λ a b r e. e };

    ghost can_mul_assign_law = { λ a b. tt };

    ghost mul_assign_law = { λ a b r e. e };

    ghost can_neg_law = { λ a. tt };

    ghost neg_law = { λ a r e. e };

    ghost elements_law = { λ _. residue_elements (numbering M.modulus) (small_word M.modulus) };

    ghost modes_law = { λ _ _. one_format _ };

    ghost memory_law = { λ m. m };
}

impl<M: PrimeModulus32> DomainCoeff<PrimeField32<M>> for PrimeField32<M> {
    ghost use Rattle.ark_base.specs.Element32.{numbering, field_of};
    ghost use Rattle.ark_base.specs.Element32Laws.{equal_elements};
    ghost use Rattle.ark_base.specs.ResiduesLaws.{residues_laws, residues_module_laws};

    ghost Meaning = { Self };

    ghost meaning = { λ x. x };

    ghost group = { itself (field_of M.modulus) };

    ghost module_laws = { residues_module_laws (numbering M.modulus) M.modulus.numbers.prime };

    ghost equality_meaning = { equal_elements M.modulus };

    ghost clone_meaning = { λ a b e. e };

    ghost zero_meaning = { refl };

    ghost can_add_meaning = { λ a b. tt };

    ghost add_meaning = { λ a b r e. e };

    ghost can_sub_meaning = { λ a b. tt };

    ghost sub_meaning = { λ a b r e. e };

    ghost can_add_assign_meaning = { λ a b. tt };

    ghost add_assign_meaning = { λ a b r e. e };

    ghost can_sub_assign_meaning = { λ a b. tt };

    ghost sub_assign_meaning = { λ a b r e. e };

    ghost can_mul_assign_meaning = { λ a f. tt };

    ghost mul_assign_meaning = { λ a f r e. e ∙ (residues_laws (numbering M.modulus) M.modulus.numbers.prime).times_comm a f };
}

impl<M: PrimeModulus32> FftField for PrimeField32<M> {
    ghost use Rattle.ark_base.specs.Element32.{numbering};
    ghost use Rattle.ark_base.specs.Residues.{generator_of, root_of, two_adic_root, large_root};
    ghost use Rattle.ark_base.specs.ResiduesLaws.{residue_roots, generator_not_zero, residue_greatest, residues_itself};

    ghost adicity = { adicity_of M.TWO_ADICITY M.SMALL_SUBGROUP_BASE M.SMALL_SUBGROUP_BASE_ADICITY };

    ghost root = { root_of (numbering M.modulus) M.modulus.numbers };

    const GENERATOR: Self = PrimeField32::reduce(M::GENERATOR as u64);

    ghost GENERATOR = { generator_of (numbering M.modulus) M.modulus.numbers };

    const TWO_ADICITY: u32 = M::TWO_ADICITY;

    ghost TWO_ADICITY = { M.TWO_ADICITY };

    const TWO_ADIC_ROOT_OF_UNITY: Self = PrimeField32::reduce(M::TWO_ADIC_ROOT_OF_UNITY as u64);

    ghost TWO_ADIC_ROOT_OF_UNITY = { two_adic_root (numbering M.modulus) M.modulus.numbers };

    const SMALL_SUBGROUP_BASE: Option<u32> = M::SMALL_SUBGROUP_BASE;

    ghost SMALL_SUBGROUP_BASE = { M.SMALL_SUBGROUP_BASE };

    const SMALL_SUBGROUP_BASE_ADICITY: Option<u32> = M::SMALL_SUBGROUP_BASE_ADICITY;

    ghost SMALL_SUBGROUP_BASE_ADICITY = { M.SMALL_SUBGROUP_BASE_ADICITY };

    const LARGE_SUBGROUP_ROOT_OF_UNITY: Option<Self> = match M::LARGE_SUBGROUP_ROOT_OF_UNITY {
        Some(value) => Some(PrimeField32::reduce(value as u64)),
        None => None,
    };

    ghost LARGE_SUBGROUP_ROOT_OF_UNITY = { large_root (numbering M.modulus) M.modulus.numbers };

    fn get_root_of_unity(n: u64) -> Option<Self> {
        if n == 0 {
            return None;
        }
        if M::GREATEST_SIZE % n != 0 {
            return None;
        }
        Some(Self::GENERATOR.pow((M::MODULUS as u64 - 1) / n))
    }

    ghost adicity_law = { refl };

    ghost together_law = { M.together };

    ghost roots_law = { residue_roots (numbering M.modulus) M.modulus.numbers };

    ghost greatest_law = { residue_greatest (numbering M.modulus) M.modulus.numbers };

    ghost generator_law = { generator_not_zero (numbering M.modulus) M.modulus.numbers };

    ghost itself_law = { residues_itself (numbering M.modulus) M.modulus.numbers.prime };
}

impl<M: PrimeModulus32> PrimeNumbers for PrimeField32<M> {
    ghost use Rattle.ark_base.specs.Element32.{numbering};

    ghost modulus = { M.MODULUS };

    ghost prime = { M.modulus.numbers.prime };

    ghost numbering = { numbering M.modulus };

    ghost generator = { M.GENERATOR };

    fn to_hex(self, alloc: Global) -> Result<String, AllocError> {
        hexadecimal(alloc, self.value() as u64)
    }

    ghost field_law = { refl };

    ghost generator_law = { (numbering M.modulus).number_of _ M.modulus.numbers.generator.powers.below };

    ghost root_law = { λ n. refl };

    ghost display_law = { λ x. refl };
}
