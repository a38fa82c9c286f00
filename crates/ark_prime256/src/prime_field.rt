//! The fields of the integers modulo an odd prime below 2^255, on four words each.

ghost use Rattle.std.specs.Prelude.{◌≡◌, ℕ, ◌+◌, ◌*◌, ◌^◌, ◌%◌, ◌<◌, ◌≤◌, ◌↔◌, Option};
ghost use Rattle.std.specs.Prelude.{IsSome, IsNone, IfSome};
ghost use Rattle.rand.specs.Draw.{Gives};
ghost use Rattle.ark_math.specs.Field.{natural, minus};
ghost use Rattle.ark_math.specs.Root.{adicity_of};
ghost use Rattle.ark_prime256.specs.Words.{integer, AreWords};
ghost use Rattle.ark_prime256.specs.Draws.{next_words};
ghost use Rattle.ark_prime256.specs.Modulus256.{IsModulus256};

mod bytes;
mod inverse;

use crate::montgomery;
use crate::montgomery::{negated, plus, product};
use crate::words::{BigInteger256, Hexadecimal, compare, is_below, of_word};
use ark_base::PrimeNumbers;
use ark_traits::{DomainCoeff, FftField, Field, One, Zero};
use rand::Rng;
use std::alloc::{AllocError, Global};
use std::cmp::Ordering;
use std::default::Default;
use std::fmt;
use std::fmt::{Debug, Display, Formatter, Write};
use std::hash::{Hash, Hasher};
use std::marker::PhantomData;
use std::ops::{Add, AddAssign, Mul, MulAssign, Neg, Sub, SubAssign};

/// An odd prime below 2^255 and its constants, the numbers of which are given as words. A field is added by
/// one impl with two facts: `modulus` is a few computed checks, and `together` the same line for every field.
pub trait PrimeModulus256 {
    ghost use Rattle.ark_prime256.specs.declared.words.BigInteger256.{BigInteger256};

    ghost MODULUS: { ℕ };

    ghost GENERATOR: { ℕ };

    ghost TWO_ADICITY: { ℕ };

    ghost TWO_ADIC_ROOT_OF_UNITY: { ℕ };

    ghost SMALL_SUBGROUP_BASE: { Option ℕ };

    ghost SMALL_SUBGROUP_BASE_ADICITY: { Option ℕ };

    ghost LARGE_SUBGROUP_ROOT_OF_UNITY: { Option ℕ };

    ghost GREATEST_SIZE: { ℕ };

    ghost MODULUS_WORDS: { BigInteger256 };

    ghost NEGATED_INVERSE: { ℕ };

    ghost R: { BigInteger256 };

    ghost R_SQUARED: { BigInteger256 };

    ghost GENERATOR_WORDS: { BigInteger256 };

    ghost TWO_ADIC_ROOT_WORDS: { BigInteger256 };

    ghost LARGE_SUBGROUP_ROOT_WORDS: { Option BigInteger256 };

    ghost modulus: { IsModulus256 MODULUS
        (adicity_of TWO_ADICITY SMALL_SUBGROUP_BASE SMALL_SUBGROUP_BASE_ADICITY)
        GENERATOR TWO_ADIC_ROOT_OF_UNITY LARGE_SUBGROUP_ROOT_OF_UNITY GREATEST_SIZE
        MODULUS_WORDS NEGATED_INVERSE R R_SQUARED
        GENERATOR_WORDS TWO_ADIC_ROOT_WORDS LARGE_SUBGROUP_ROOT_WORDS };

    ghost together: { IsSome SMALL_SUBGROUP_BASE ↔ IsSome SMALL_SUBGROUP_BASE_ADICITY };

    /// The prime.
    const MODULUS_WORDS: BigInteger256;

    /// Minus the inverse of the prime, modulo 2^64.
    const NEGATED_INVERSE: u64;

    /// 2^256, modulo the prime.
    const R: BigInteger256;

    /// 2^512, modulo the prime.
    const R_SQUARED: BigInteger256;

    /// A number whose powers are all numbers below the prime but zero.
    const GENERATOR_WORDS: BigInteger256;

    /// The greatest `a` of a size `2^a` that domains take. It may be less than the prime allows.
    const TWO_ADICITY: u32;

    /// The generator's power `(MODULUS - 1) / 2^TWO_ADICITY`.
    const TWO_ADIC_ROOT_WORDS: BigInteger256;

    /// An odd prime `q` of further sizes `2^a * q^b`.
    const SMALL_SUBGROUP_BASE: Option<u32>;

    /// The greatest `b` of those sizes.
    const SMALL_SUBGROUP_BASE_ADICITY: Option<u32>;

    /// The generator's power `(MODULUS - 1) / GREATEST_SIZE`, where there is a base.
    const LARGE_SUBGROUP_ROOT_WORDS: Option<BigInteger256>;

    /// `2^a * q^b` with both exponents at their greatest.
    const GREATEST_SIZE: u64;
}

/// An integer modulo `M`'s prime, kept in Montgomery's form: the words are those of the integer times 2^256,
/// modulo the prime. Contracts see the integer alone.
#[derive_where(Copy)]
pub struct PrimeField256<M: PrimeModulus256> {
    words: BigInteger256,
    marker: PhantomData<M>,
    ghost are_words: { AreWords words },
    ghost reduced: { integer words < M.MODULUS },
}

impl<M: PrimeModulus256> Clone for PrimeField256<M> {
    ghost is_clone = { λ a b. b ≡ a };

    ghost is_infallible = { λ _. Unit {0} };

    fn clone(&self) -> Result<Self, AllocError> {
        Ok(*self)
    }
}

impl<M: PrimeModulus256> PrimeField256<M> {
    ghost use Rattle.ark_math.specs.Words.{number_of_words};
    ghost use Rattle.ark_base.specs.Residues.{root_of};
    ghost use Rattle.ark_prime256.specs.Element.{number, numbering, field_of, unit};

    /// The element of a number, modulo the prime.
    pub const fn reduce(value: BigInteger256) -> Self
        ensures { number result ≡ integer value % M.MODULUS }
    {
        PrimeField256 {
            words: PrimeField256::<M>::montgomery_product(M::R_SQUARED, value),
            marker: PhantomData,
        }
    }

    /// The element of a number below the prime, and `None` for a number that is not.
    pub fn from_bigint(value: BigInteger256) -> Option<Self>
        ensures some { IfSome result (λ x. number x ≡ integer value) }
        ensures none { IsNone result ↔ (M.MODULUS ≤ integer value) }
    {
        if is_below(value, M::MODULUS_WORDS) {
            Some(PrimeField256::reduce(value))
        } else {
            None
        }
    }

    /// The number below the prime that the element is: it is so many ones added up.
    pub fn into_bigint(self) -> BigInteger256
        ensures number { integer result ≡ number self }
        ensures below { integer result < M.MODULUS }
        ensures natural { self ≡ natural (field_of M.modulus) (integer result) }
    {
        PrimeField256::<M>::montgomery_product(self.words, of_word(1))
    }

    /// The element of the number that these words spell, the low one first, and `None` where it is not below
    /// the prime.
    pub fn from_words(words: [u64; 4]) -> Option<Self>
        ensures some { IfSome result (λ x. number x ≡ number_of_words words) }
        ensures none { IsNone result ↔ (M.MODULUS ≤ number_of_words words) }
    {
        PrimeField256::from_bigint(BigInteger256::new(words))
    }

    /// The words of the number below the prime that the element is, the low one first.
    pub fn to_words(self) -> [u64; 4]
        ensures { number_of_words result ≡ number self }
    {
        self.into_bigint().to_words()
    }

    /// The element whose product with `unit` has the number that these words spell, the low one first, and
    /// `None` exactly where that isn't below the prime. It takes no product: for maps that keep multiples, such
    /// as transforms, this is the number itself.
    #[inline(always)]
    pub fn from_scaled(words: [u64; 4]) -> Option<Self>
        ensures some { IfSome result (λ x. number ((field_of M.modulus).times (unit M.modulus) x)
            ≡ number_of_words words) }
        ensures none { IsNone result ↔ (M.MODULUS ≤ number_of_words words) }
    {
        let value = BigInteger256::new(words);
        if is_below(value, M::MODULUS_WORDS) {
            Some(PrimeField256 {
                words: value,
                marker: PhantomData,
            })
        } else {
            None
        }
    }

    /// The words of the number of the element's product with `unit`, the low one first.
    #[inline(always)]
    pub fn scaled(self) -> [u64; 4]
        ensures { number_of_words result ≡ number ((field_of M.modulus).times (unit M.modulus) self) }
    {
        self.words.to_words()
    }

    // The root of unity of the greatest order that domains take.
    fn greatest_root() -> Self
        ensures { result ≡ root_of (numbering M.modulus) M.modulus.numbers M.GREATEST_SIZE }
    {
        match M::LARGE_SUBGROUP_ROOT_WORDS {
            Some(words) => PrimeField256::reduce(words),
            None => PrimeField256::reduce(M::TWO_ADIC_ROOT_WORDS),
        }
    }

    // Montgomery's product modulo the prime.
    #[inline(always)]
    const fn montgomery_product(a: BigInteger256, b: BigInteger256) -> BigInteger256
        requires { integer a < M.MODULUS }
        ensures below { integer result < M.MODULUS }
        ensures residue { (2 ^ 256 * integer result) % M.MODULUS ≡ (integer a * integer b) % M.MODULUS }
    {
        product(a, b, M::MODULUS_WORDS, M::NEGATED_INVERSE)
    }
}

impl<M: PrimeModulus256> PartialEq for PrimeField256<M> {
    ghost use Rattle.std.specs.Prelude.{nat_eq};
    ghost use Rattle.std.specs.Ordering.{on};
    ghost use Rattle.std.specs.Cmp.{on_per, partial_equiv_from_equiv, nat_eq_equiv};
    ghost use Rattle.ark_prime256.specs.Element.{number};

    ghost eq = { on number nat_eq };

    ghost laws = { on_per number (partial_equiv_from_equiv nat_eq_equiv) };

    fn eq(&self, other: &Self) -> bool {
        self.words == other.words
    }
}

impl<M: PrimeModulus256> Eq for PrimeField256<M> {
    ghost use Rattle.std.specs.Cmp.{on_equiv, nat_eq_equiv};
    ghost use Rattle.ark_prime256.specs.Element.{number};

    ghost laws = { on_equiv number nat_eq_equiv };
}

/// The order of the numbers below the prime.
impl<M: PrimeModulus256> Ord for PrimeField256<M> {
    ghost use Rattle.std.specs.Prelude.{refl};
    ghost use Rattle.std.specs.Cmp.{on_total, nat_cmp_total};
    ghost use Rattle.std.specs.Ordering.{on, nat_cmp};
    ghost use Rattle.ark_prime256.specs.Element.{number};
    ghost use Rattle.ark_prime256.specs.ElementLaws.{ties_are_equal};

    ghost cmp = { on number nat_cmp };

    ghost total = { on_total number nat_cmp_total };

    ghost matches_partial_cmp = { λ x y. refl };

    ghost matches_eq = { λ x y. ties_are_equal (number x) (number y) };

    fn cmp(&self, other: &Self) -> Ordering {
        compare(self.into_bigint(), other.into_bigint())
    }
}

impl<M: PrimeModulus256> PartialOrd for PrimeField256<M> {
    ghost use Rattle.std.specs.Cmp.{po, on_total, nat_cmp_total};
    ghost use Rattle.std.specs.Ordering.{on, nat_cmp, as_partial_cmp};
    ghost use Rattle.ark_prime256.specs.Element.{number};
    ghost use Rattle.ark_prime256.specs.ElementLaws.{ties_are_equal};

    ghost partial_cmp = { as_partial_cmp (on number nat_cmp) };

    ghost laws = { po (on_total number nat_cmp_total) (λ x y. ties_are_equal (number x) (number y)) };

    fn partial_cmp(&self, other: &Self) -> Option<Ordering> {
        Some(self.cmp(other))
    }
}

/// The number below the prime, in hexadecimal.
impl<M: PrimeModulus256> Debug for PrimeField256<M> {
    fn fmt<W: Write>(&self, f: &mut Formatter<W>) -> fmt::Result {
        let number = self.into_bigint();
        write!(
            f,
            "0x{:016x}{:016x}{:016x}{:016x}",
            number.w3, number.w2, number.w1, number.w0
        )
    }
}

/// The number below the prime, in decimal.
impl<M: PrimeModulus256> Display for PrimeField256<M> {
    ghost use Rattle.std.specs.Prelude.{Some};
    ghost use Rattle.ark_base.specs.Numerals.{decimal_text};
    ghost use Rattle.ark_prime256.specs.Element.{number};

    ghost output = { λ x. Some (decimal_text (number x)) };

    fn fmt<W: Write>(&self, f: &mut Formatter<W>) -> fmt::Result {
        Display::fmt(&self.into_bigint(), f)
    }
}

impl<M: PrimeModulus256> Hash for PrimeField256<M> {
    ghost use Rattle.ark_prime256.specs.Element.{number};
    ghost use Rattle.ark_prime256.specs.Words.{words_of};
    ghost use Rattle.ark_prime256.specs.ElementLaws.{same_input};

    ghost hash_input = { λ x. ⟦<BigInteger256 as Hash>⟧.hash_input (words_of (number x)) };

    ghost respects_eq = { same_input ⟦<BigInteger256 as Hash>⟧.hash_input };

    fn hash<H: Hasher>(&self, state: &mut H) {
        self.into_bigint().hash(state);
    }
}

impl<M: PrimeModulus256> Zero for PrimeField256<M> {
    ghost use Rattle.ark_prime256.specs.Element.{field_of};

    ghost zero = { (field_of M.modulus).zero };

    fn zero() -> Self {
        PrimeField256 {
            words: of_word(0),
            marker: PhantomData,
        }
    }

    fn is_zero(&self) -> bool {
        *self == Self::zero()
    }
}

impl<M: PrimeModulus256> One for PrimeField256<M> {
    ghost use Rattle.ark_prime256.specs.Element.{field_of};

    ghost one = { (field_of M.modulus).one };

    fn one() -> Self {
        PrimeField256 {
            words: M::R,
            marker: PhantomData,
        }
    }

    fn is_one(&self) -> bool {
        *self == Self::one()
    }
}

impl<M: PrimeModulus256> Default for PrimeField256<M> {
    ghost use Rattle.ark_prime256.specs.Element.{field_of};

    ghost is_default = { λ x. x ≡ (field_of M.modulus).zero };

    fn default() -> Self {
        Zero::zero()
    }
}

impl<M: PrimeModulus256> From<u64> for PrimeField256<M> {
    ghost use Rattle.ark_base.specs.Residues.{residue_of};
    ghost use Rattle.ark_prime256.specs.Element.{numbering};

    ghost from_gives = { λ n r. r ≡ residue_of (numbering M.modulus) M.modulus.numbers.prime n };

    /// The number modulo the prime.
    fn from(value: u64) -> Self {
        PrimeField256::reduce(of_word(value))
    }
}

impl<M: PrimeModulus256> Add<PrimeField256<M>> for PrimeField256<M> {
    ghost use Rattle.ark_prime256.specs.Element.{field_of};

    type Output = PrimeField256<M>;

    ghost add_gives = { λ a b r. r ≡ (field_of M.modulus).plus a b };

    fn add(self, rhs: PrimeField256<M>) -> PrimeField256<M> {
        PrimeField256 {
            words: plus(self.words, rhs.words, M::MODULUS_WORDS),
            marker: PhantomData,
        }
    }
}

impl<M: PrimeModulus256> AddAssign<PrimeField256<M>> for PrimeField256<M> {
    ghost use Rattle.ark_prime256.specs.Element.{field_of};

    ghost add_assign_gives = { λ a b r. r ≡ (field_of M.modulus).plus a b };

    fn add_assign(&mut self, rhs: PrimeField256<M>) {
        *self = *self + rhs;
    }
}

impl<M: PrimeModulus256> Sub<PrimeField256<M>> for PrimeField256<M> {
    ghost use Rattle.ark_prime256.specs.Element.{field_of};

    type Output = PrimeField256<M>;

    ghost sub_gives = { λ a b r. r ≡ minus (field_of M.modulus) a b };

    fn sub(self, rhs: PrimeField256<M>) -> PrimeField256<M> {
        PrimeField256 {
            words: montgomery::minus(self.words, rhs.words, M::MODULUS_WORDS),
            marker: PhantomData,
        }
    }
}

impl<M: PrimeModulus256> SubAssign<PrimeField256<M>> for PrimeField256<M> {
    ghost use Rattle.ark_prime256.specs.Element.{field_of};

    ghost sub_assign_gives = { λ a b r. r ≡ minus (field_of M.modulus) a b };

    fn sub_assign(&mut self, rhs: PrimeField256<M>) {
        *self = *self - rhs;
    }
}

impl<M: PrimeModulus256> Mul<PrimeField256<M>> for PrimeField256<M> {
    ghost use Rattle.ark_prime256.specs.Element.{field_of};

    type Output = PrimeField256<M>;

    ghost mul_gives = { λ a b r. r ≡ (field_of M.modulus).times a b };

    fn mul(self, rhs: PrimeField256<M>) -> PrimeField256<M> {
        PrimeField256 {
            words: PrimeField256::<M>::montgomery_product(self.words, rhs.words),
            marker: PhantomData,
        }
    }
}

impl<M: PrimeModulus256> MulAssign<PrimeField256<M>> for PrimeField256<M> {
    ghost use Rattle.ark_prime256.specs.Element.{field_of};

    ghost mul_assign_gives = { λ a b r. r ≡ (field_of M.modulus).times a b };

    fn mul_assign(&mut self, rhs: PrimeField256<M>) {
        *self = *self * rhs;
    }
}

impl<M: PrimeModulus256> Neg for PrimeField256<M> {
    ghost use Rattle.ark_prime256.specs.Element.{field_of};

    type Output = PrimeField256<M>;

    ghost neg_gives = { λ a r. r ≡ (field_of M.modulus).negated a };

    fn neg(self) -> PrimeField256<M> {
        PrimeField256 {
            words: negated(self.words, M::MODULUS_WORDS),
            marker: PhantomData,
        }
    }
}

impl<M: PrimeModulus256> Field for PrimeField256<M> {
    ghost use Rattle.std.specs.Prelude.{refl};
    ghost use Rattle.rand.specs.Draw.{Gives, draw_map};
    ghost use Rattle.ark_math_formats.proofs.Formats.Modes.{one_format};
    ghost use Rattle.ark_prime256.specs.Draws.{next_words};
    ghost use Rattle.ark_base.specs.ResiduesLaws.{residues_laws};
    ghost use Rattle.ark_prime256.specs.Element.{number, numbering, field_of};
    ghost use Rattle.ark_prime256.specs.ElementLaws.{equal_elements, natural_element};
    ghost use Rattle.ark_prime256.specs.ElementBytes.{elements_in_bytes};

    ghost field = { field_of M.modulus };

    ghost element_size = { 32 };

    ghost draws = { λ s x t. Gives (draw_map (λ v. v % M.MODULUS) (next_words 8)) s (number x) t };

    /// By Euclid's algorithm, with halvings and differences in place of divisions.
    fn inverse(&self) -> Option<Self> {
        if *self == Self::zero() {
            return None;
        }
        Some(self.inverse_by_steps())
    }

    /// The residue of the generator's next eight words of 64 bits, the low one first, as `draws` says. No
    /// clause speaks of probabilities.
    fn rand<R: Rng>(rng: &mut R) -> Self {
        let low = draw_words(rng);
        let high = draw_words(rng);
        let shift: Self = PrimeField256::reduce(M::R);
        let high: Self = PrimeField256::reduce(high);
        let low: Self = PrimeField256::reduce(low);
        low + high * shift
    }

    ghost field_laws = { residues_laws (numbering M.modulus) M.modulus.numbers.prime };

    ghost zero_law = { refl };

    ghost one_law = { refl };

    ghost equality_law = { equal_elements M.modulus };

    ghost clone_law = { λ a b e. e };

    ghost default_law = { λ a e. e };

    ghost from_law = { λ n r fits e. natural_element M.modulus n r e };

    ghost can_add_law = { λ a b. tt };

    ghost add_law = { λ a b r e. e };

    ghost can_sub_law = { λ a b. tt };

    ghost sub_law = { λ a b r e. e };

    ghost can_mul_law = { λ a b. tt };

    ghost mul_law = { λ a b r e. e };

    ghost can_add_assign_law = { λ a b. tt };

    ghost add_assign_law = { λ a b r e. e };

    ghost can_sub_assign_law = { λ a b. tt };

    ghost sub_assign_law = { λ a b r e. e };

    ghost can_mul_assign_law = { λ a b. tt };

    ghost mul_assign_law = { λ a b r e. e };

    ghost can_neg_law = { λ a. tt };

    ghost neg_law = { λ a r e. e };

    ghost elements_law = { λ _. elements_in_bytes M.modulus };

    ghost modes_law = { λ _ _. one_format _ };

    ghost memory_law = { λ m. m };
}

impl<M: PrimeModulus256> DomainCoeff<PrimeField256<M>> for PrimeField256<M> {
    ghost use Rattle.std.specs.Prelude.{refl};
    ghost use Rattle.std.proofs.Common.{◌∙◌};
    ghost use Rattle.ark_math.specs.Module.{itself};
    ghost use Rattle.ark_base.specs.ResiduesLaws.{residues_laws, residues_module_laws};
    ghost use Rattle.ark_prime256.specs.Element.{numbering, field_of};
    ghost use Rattle.ark_prime256.specs.ElementLaws.{equal_elements};

    ghost Meaning = { Self };

    ghost meaning = { λ x. x };

    ghost group = { itself (field_of M.modulus) };

    ghost module_laws = { residues_module_laws (numbering M.modulus) M.modulus.numbers.prime };

    ghost equality_meaning = { equal_elements M.modulus };

    ghost clone_meaning = { λ a b e. e };

    ghost zero_meaning = { refl };

    ghost can_add_meaning = { λ a b. tt };

    ghost add_meaning = { λ a b r e. e };

    ghost can_sub_meaning = { λ a b. tt };

    ghost sub_meaning = { λ a b r e. e };

    ghost can_add_assign_meaning = { λ a b. tt };

    ghost add_assign_meaning = { λ a b r e. e };

    ghost can_sub_assign_meaning = { λ a b. tt };

    ghost sub_assign_meaning = { λ a b r e. e };

    ghost can_mul_assign_meaning = { λ a f. tt };

    ghost mul_assign_meaning = { λ a f r e. e
        ∙ (residues_laws (numbering M.modulus) M.modulus.numbers.prime).times_comm a f };
}

impl<M: PrimeModulus256> FftField for PrimeField256<M> {
    ghost use Rattle.std.specs.Prelude.{refl};
    ghost use Rattle.ark_base.specs.Residues.{generator_of, root_of, two_adic_root, large_root};
    ghost use Rattle.ark_base.specs.ResiduesLaws.{residue_roots, residue_greatest};
    ghost use Rattle.ark_base.specs.ResiduesLaws.{generator_not_zero, residues_itself};
    ghost use Rattle.ark_prime256.specs.Element.{numbering};

    ghost adicity = { adicity_of M.TWO_ADICITY M.SMALL_SUBGROUP_BASE M.SMALL_SUBGROUP_BASE_ADICITY };

    ghost root = { root_of (numbering M.modulus) M.modulus.numbers };

    const GENERATOR: Self = PrimeField256::reduce(M::GENERATOR_WORDS);

    ghost GENERATOR = { generator_of (numbering M.modulus) M.modulus.numbers };

    const TWO_ADICITY: u32 = M::TWO_ADICITY;

    ghost TWO_ADICITY = { M.TWO_ADICITY };

    const TWO_ADIC_ROOT_OF_UNITY: Self = PrimeField256::reduce(M::TWO_ADIC_ROOT_WORDS);

    ghost TWO_ADIC_ROOT_OF_UNITY = { two_adic_root (numbering M.modulus) M.modulus.numbers };

    const SMALL_SUBGROUP_BASE: Option<u32> = M::SMALL_SUBGROUP_BASE;

    ghost SMALL_SUBGROUP_BASE = { M.SMALL_SUBGROUP_BASE };

    const SMALL_SUBGROUP_BASE_ADICITY: Option<u32> = M::SMALL_SUBGROUP_BASE_ADICITY;

    ghost SMALL_SUBGROUP_BASE_ADICITY = { M.SMALL_SUBGROUP_BASE_ADICITY };

    const LARGE_SUBGROUP_ROOT_OF_UNITY: Option<Self> = match M::LARGE_SUBGROUP_ROOT_WORDS {
        Some(words) => Some(PrimeField256::reduce(words)),
        None => None,
    };

    ghost LARGE_SUBGROUP_ROOT_OF_UNITY = { large_root (numbering M.modulus) M.modulus.numbers };

    fn get_root_of_unity(n: u64) -> Option<Self> {
        if n == 0 {
            return None;
        }
        if M::GREATEST_SIZE % n != 0 {
            return None;
        }
        Some(PrimeField256::<M>::greatest_root().pow(M::GREATEST_SIZE / n))
    }

    ghost adicity_law = { refl };

    ghost together_law = { M.together };

    ghost roots_law = { residue_roots (numbering M.modulus) M.modulus.numbers };

    ghost greatest_law = { residue_greatest (numbering M.modulus) M.modulus.numbers };

    ghost generator_law = { generator_not_zero (numbering M.modulus) M.modulus.numbers };

    ghost itself_law = { residues_itself (numbering M.modulus) M.modulus.numbers.prime };
}

impl<M: PrimeModulus256> PrimeNumbers for PrimeField256<M> {
    ghost use Rattle.std.specs.Prelude.{refl};
    ghost use Rattle.ark_prime256.specs.Element.{numbering};

    ghost modulus = { M.MODULUS };

    ghost prime = { M.modulus.numbers.prime };

    ghost numbering = { numbering M.modulus };

    ghost generator = { M.GENERATOR };

    fn to_hex(self, alloc: Global) -> Result<String, AllocError> {
        Hexadecimal(self.into_bigint()).to_string(alloc)
    }

    ghost field_law = { refl };

    ghost generator_law = { (numbering M.modulus).number_of _ M.modulus.numbers.generator.powers.below };

    ghost root_law = { λ n. refl };

    ghost display_law = { λ x. refl };
}

// Four words of the generator as one number, the low one first.
fn draw_words<R: Rng>(rng: &mut R) -> BigInteger256
    ensures { Gives (next_words 4) (R.stream rng.old) (integer result) (R.stream rng.new) }
{
    let w0 = rng.next_u64();
    let w1 = rng.next_u64();
    let w2 = rng.next_u64();
    let w3 = rng.next_u64();
    BigInteger256 { w0, w1, w2, w3 }
}
