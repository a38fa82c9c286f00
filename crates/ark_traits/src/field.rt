//! Fields, modules over them, and fields with roots of unity.

ghost use Rattle.std.specs.Prelude.{◌≡◌, ◌≢◌, ◌↔◌, ℕ, ◌<◌, ◌^◌, Option, Decides, IfSome, IsSome, IsNone, ⊤};
ghost use Rattle.rand_core.specs.Stream.{Stream};
ghost use Rattle.ark_math.specs.Field.{FieldOn, IsField, minus, power, natural};
ghost use Rattle.ark_math.specs.Words.{number_of_words};
ghost use Rattle.ark_math.specs.Module.{ModuleOn, IsModule, IsItself};
ghost use Rattle.ark_math.specs.Root.{Adicity, IsSupported, AreRoots, AreGreatest};
ghost use Rattle.ark_math.specs.Root.{adicity_of};
ghost use Rattle.ark_math_formats.specs.Format.{AreElements, AreAlike};

use ark_bytes::{CanonicalDeserialize, CanonicalSerialize};
use rand::Rng;
use std::fmt::Debug;
use std::hash::Hash;
use std::ops::{Add, AddAssign, Mul, MulAssign, Neg, Sub, SubAssign};

/// A type with a zero.
pub trait Zero: PartialEq {
    ghost zero: { Self };

    /// Zero.
    fn zero() -> Self
        ensures { result ≡ zero };

    /// Whether the value equals zero, by `==`.
    fn is_zero(&self) -> bool
        ensures { result ≡ Self.eq self.now zero };
}

/// A type with a one.
pub trait One: PartialEq {
    ghost one: { Self };

    /// One.
    fn one() -> Self
        ensures { result ≡ one };

    /// Whether the value equals one, by `==`.
    fn is_one(&self) -> bool
        ensures { result ≡ Self.eq self.now one };
}

/// A field: a commutative ring with 1 different from 0, in which every value but 0 has an inverse. In bytes
/// each element has a spelling of its own, all of one length, both modes are the same, and reading takes no
/// memory.
pub trait Field: Copy
    + Eq
    + Ord
    + Hash
    + Debug
    + Default
    + Zero
    + One
    + From<u64>
    + Add<Self, Output = Self>
    + Sub<Self, Output = Self>
    + Mul<Self, Output = Self>
    + AddAssign<Self>
    + SubAssign<Self>
    + MulAssign<Self>
    + Neg<Output = Self>
    + CanonicalSerialize
    + CanonicalDeserialize {
    ghost use Rattle.ark_bytes.specs.declared.compress.Compress.{Compress};

    ghost field: { FieldOn Self };

    // How many bytes the spelling of an element has.
    ghost element_size: { ℕ };

    // Which value is drawn of a generator's stream, and the stream that is left. Nothing is said of it by
    // default.
    ghost draws: { Stream → Self → Stream → Type 0 } = { λ _ _ _. ⊤ };

    /// The inverse, and `None` exactly at zero.
    fn inverse(&self) -> Option<Self>
        ensures some { IfSome result (λ y. field.times self.now y ≡ field.one) }
        ensures none { IsNone result ↔ (self.now ≡ field.zero) };

    /// Replaces the value by its square.
    fn square_in_place(&mut self)
        ensures { self.new ≡ field.times self.old self.old }
    {
        *self *= *self;
    }

    /// The value to this power, by squaring. To the power of 0 every value is one, zero too.
    fn pow(&self, exponent: u64) -> Self
        ensures { result ≡ power field self.now exponent }
    {
        let mut result = Self::one();
        let mut square = *self;
        let mut left = exponent;
        'bits: while left != 0 {
            if left % 2 == 1 {
                result = result * square;
            }
            square = square * square;
            left /= 2;
        }
        result
    }

    /// The value to the power that words of 64 bits spell, the low one first, by squaring. To the power of 0
    /// every value is one, zero too.
    fn pow_words(&self, exponent: &[u64]) -> Self
        ensures { result ≡ power field self.now (number_of_words exponent.now) }
    {
        let mut result = Self::one();
        let mut square = *self;
        'words: for word in exponent {
            let mut left = *word;
            'bits: for _i in 0..64u32 {
                if left % 2 == 1 {
                    result = result * square;
                }
                square = square * square;
                left /= 2;
            }
        }
        result
    }

    /// A value drawn from the generator. Where the field has `draws`, this says which value the stream gives,
    /// and what is left of the stream; otherwise nothing is known of the value.
    fn rand<R: Rng>(rng: &mut R) -> Self
        ensures drawn { draws (R.stream rng.old) result (R.stream rng.new) };

    ghost field_laws: { IsField field };

    ghost zero_law: { Self.zero ≡ field.zero };

    ghost one_law: { Self.one ≡ field.one };

    ghost equality_law: { (a b : Self) → Decides (Self.eq a b) (a ≡ b) };

    ghost clone_law: { (a b : Self) → Self.is_clone a b → b ≡ a };

    ghost default_law: { (a : Self) → Self.is_default a → a ≡ field.zero };

    ghost from_law: { (n : ℕ) (r : Self) → n < 2 ^ 64 → Self.from_gives n r → r ≡ natural field n };

    ghost can_add_law: { (a b : Self) → Self.can_add a b };

    ghost add_law: { (a b r : Self) → Self.add_gives a b r → r ≡ field.plus a b };

    ghost can_sub_law: { (a b : Self) → Self.can_sub a b };

    ghost sub_law: { (a b r : Self) → Self.sub_gives a b r → r ≡ minus field a b };

    ghost can_mul_law: { (a b : Self) → Self.can_mul a b };

    ghost mul_law: { (a b r : Self) → Self.mul_gives a b r → r ≡ field.times a b };

    ghost can_add_assign_law: { (a b : Self) → Self.can_add_assign a b };

    ghost add_assign_law: { (a b r : Self) → Self.add_assign_gives a b r → r ≡ field.plus a b };

    ghost can_sub_assign_law: { (a b : Self) → Self.can_sub_assign a b };

    ghost sub_assign_law: { (a b r : Self) → Self.sub_assign_gives a b r → r ≡ minus field a b };

    ghost can_mul_assign_law: { (a b : Self) → Self.can_mul_assign a b };

    ghost mul_assign_law: { (a b r : Self) → Self.mul_assign_gives a b r → r ≡ field.times a b };

    ghost can_neg_law: { (a : Self) → Self.can_neg a };

    ghost neg_law: { (a r : Self) → Self.neg_gives a r → r ≡ field.negated a };

    ghost elements_law: { (mode : Compress) → AreElements (Self.format mode) element_size };

    ghost modes_law: { (mode other : Compress) → AreAlike (Self.format mode) (Self.format other) };

    ghost memory_law: { ¬ Self.takes_memory };
}

/// A module over a field: the values that domains transform. Each value has a meaning, and the laws speak of
/// meanings, so two values may differ in a part that the meaning ignores. Kernels see it as a `Summand`, whose
/// only product is counted.
pub trait DomainCoeff<F: Field>: Copy
    + Add<Self, Output = Self>
    + Sub<Self, Output = Self>
    + AddAssign<Self>
    + SubAssign<Self>
    + Zero
    + MulAssign<F>
    + Debug
    + PartialEq {
    ghost Meaning: { Type 0 };

    ghost meaning: { Self → Meaning };

    ghost group: { ModuleOn F Meaning };

    ghost module_laws: { IsModule F.field group };

    ghost equality_meaning: { (a b : Self) → Decides (Self.eq a b) (meaning a ≡ meaning b) };

    ghost clone_meaning: { (a b : Self) → Self.is_clone a b → meaning b ≡ meaning a };

    ghost zero_meaning: { meaning Self.zero ≡ group.zero };

    ghost can_add_meaning: { (a b : Self) → Self.can_add a b };

    ghost add_meaning: { (a b r : Self) → Self.add_gives a b r
        → meaning r ≡ group.plus (meaning a) (meaning b) };

    ghost can_sub_meaning: { (a b : Self) → Self.can_sub a b };

    ghost sub_meaning: { (a b r : Self) → Self.sub_gives a b r
        → meaning r ≡ group.plus (meaning a) (group.negated (meaning b)) };

    ghost can_add_assign_meaning: { (a b : Self) → Self.can_add_assign a b };

    ghost add_assign_meaning: { (a b r : Self) → Self.add_assign_gives a b r
        → meaning r ≡ group.plus (meaning a) (meaning b) };

    ghost can_sub_assign_meaning: { (a b : Self) → Self.can_sub_assign a b };

    ghost sub_assign_meaning: { (a b r : Self) → Self.sub_assign_gives a b r
        → meaning r ≡ group.plus (meaning a) (group.negated (meaning b)) };

    ghost can_mul_assign_meaning: { (a : Self) (f : F) → Self.can_mul_assign a f };

    ghost mul_assign_meaning: { (a : Self) (f : F) (r : Self) → Self.mul_assign_gives a f r
        → meaning r ≡ group.scale f (meaning a) };
}

/// A field with roots of unity of some sizes `2^a * q^b`. As a module over itself it is the field.
pub trait FftField: Field + DomainCoeff<Self> {
    ghost adicity: { Adicity };

    ghost root: { ℕ → Self };

    ghost GENERATOR: { Self };

    /// A value whose powers are the roots; not zero.
    const GENERATOR: Self;

    ghost TWO_ADICITY: { ℕ };

    /// The greatest `a` of a supported size.
    const TWO_ADICITY: u32;

    ghost TWO_ADIC_ROOT_OF_UNITY: { Self };

    /// The root of order `2^TWO_ADICITY`.
    const TWO_ADIC_ROOT_OF_UNITY: Self;

    ghost SMALL_SUBGROUP_BASE: { Option ℕ };

    /// The odd base `q`, at least 3, where there is one.
    const SMALL_SUBGROUP_BASE: Option<u32>;

    ghost SMALL_SUBGROUP_BASE_ADICITY: { Option ℕ };

    /// The greatest `b` of a supported size.
    const SMALL_SUBGROUP_BASE_ADICITY: Option<u32>;

    ghost LARGE_SUBGROUP_ROOT_OF_UNITY: { Option Self };

    /// The root of order `2^a * q^b` with both exponents at their greatest.
    const LARGE_SUBGROUP_ROOT_OF_UNITY: Option<Self>;

    /// The root of unity of order `n`, where this is a supported size, and `None` at each other.
    fn get_root_of_unity(n: u64) -> Option<Self>
        ensures some { IfSome result (λ r. r ≡ root n) }
        ensures supported { IsSome result ↔ IsSupported adicity n };

    ghost adicity_law: { adicity ≡ adicity_of TWO_ADICITY SMALL_SUBGROUP_BASE SMALL_SUBGROUP_BASE_ADICITY };

    ghost together_law: { IsSome SMALL_SUBGROUP_BASE ↔ IsSome SMALL_SUBGROUP_BASE_ADICITY };

    ghost roots_law: { AreRoots Self.field adicity root };

    ghost greatest_law: { AreGreatest adicity root TWO_ADIC_ROOT_OF_UNITY LARGE_SUBGROUP_ROOT_OF_UNITY };

    ghost generator_law: { GENERATOR ≢ Self.field.zero };

    ghost itself_law: { IsItself Self.field Self.group Self.meaning };
}
