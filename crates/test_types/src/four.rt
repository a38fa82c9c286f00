//! A field of characteristic two, whose sizes are 1 and 3 alone.

ghost use Rattle.std.specs.Prelude.{◌≡◌, ◌≢◌, Some, refl, true, false};
ghost use Rattle.std.proofs.Common.{◌∙◌, ap, true≢false};
ghost use Rattle.ark_math.specs.Field.{minus, natural};
ghost use Rattle.ark_math.specs.Module.{itself};
ghost use Rattle.test_types.specs.Four.{bits, four, thirds, root_of_four};
ghost use Rattle.test_types.specs.FourLaws.{four_laws, four_module, four_itself, four_roots, four_greatest, four_equality};
ghost use Rattle.ark_math_formats.proofs.Formats.Modes.{one_format};
ghost use Rattle.test_types.specs.FourBytes.{four_elements};

use ark_base::{DomainCoeff, FftField, Field, One, Zero};
use rand::{Rng, RngExt};
use std::default::Default;
use std::fmt;
use std::fmt::{Display, Formatter, Write};
use std::ops::{Add, AddAssign, Mul, MulAssign, Neg, Sub, SubAssign};

/// One of four elements: two bits, of which the high one counts a root of `x^2 + x + 1`.
#[derive(Clone, Copy, Debug, PartialEq, Eq, PartialOrd, Ord, Hash)]
pub struct Four {
    pub high: bool,
    pub low: bool,
}

impl Display for Four {
    fn fmt<W: Write>(&self, f: &mut Formatter<W>) -> fmt::Result {
        Display::fmt(&self.to_number(), f)
    }
}

impl Zero for Four {
    ghost zero = { four.zero };

    fn zero() -> Four {
        Four {
            high: false,
            low: false,
        }
    }

    fn is_zero(&self) -> bool {
        *self == Four::zero()
    }
}

impl One for Four {
    ghost one = { four.one };

    fn one() -> Four {
        Four {
            high: false,
            low: true,
        }
    }

    fn is_one(&self) -> bool {
        *self == Four::one()
    }
}

impl Default for Four {
    ghost is_default = { λ x. x ≡ four.zero };

    fn default() -> Four {
        Four::zero()
    }
}

impl From<u64> for Four {
    ghost from_gives = { λ n r. r ≡ natural four n };

    fn from(value: u64) -> Four {
        Four {
            high: false,
            low: value % 2 == 1,
        }
    }
}

impl Add<Four> for Four {
    type Output = Four;

    ghost add_gives = { λ a b r. r ≡ four.plus a b };

    fn add(self, rhs: Four) -> Four {
        Four {
            high: self.high ^ rhs.high,
            low: self.low ^ rhs.low,
        }
    }
}

impl AddAssign<Four> for Four {
    ghost add_assign_gives = { λ a b r. r ≡ four.plus a b };

    fn add_assign(&mut self, rhs: Four) {
        *self = *self + rhs;
    }
}

impl Sub<Four> for Four {
    type Output = Four;

    ghost sub_gives = { λ a b r. r ≡ minus four a b };

    fn sub(self, rhs: Four) -> Four {
        self + rhs
    }
}

impl SubAssign<Four> for Four {
    ghost sub_assign_gives = { λ a b r. r ≡ minus four a b };

    fn sub_assign(&mut self, rhs: Four) {
        *self = *self - rhs;
    }
}

impl Mul<Four> for Four {
    type Output = Four;

    ghost mul_gives = { λ a b r. r ≡ four.times a b };

    fn mul(self, rhs: Four) -> Four {
        Four {
            high: (self.high & rhs.high) ^ (self.high & rhs.low) ^ (self.low & rhs.high),
            low: (self.high & rhs.high) ^ (self.low & rhs.low),
        }
    }
}

impl MulAssign<Four> for Four {
    ghost mul_assign_gives = { λ a b r. r ≡ four.times a b };

    fn mul_assign(&mut self, rhs: Four) {
        *self = *self * rhs;
    }
}

impl Neg for Four {
    type Output = Four;

    ghost neg_gives = { λ a r. r ≡ four.negated a };

    fn neg(self) -> Four {
        self
    }
}

impl Field for Four {
    ghost field = { four };

    ghost element_size = { 1 };

    /// The square, since every value but zero is one to the power of three.
    fn inverse(&self) -> Option<Four> {
        if self.is_zero() {
            None
        } else {
            Some(*self * *self)
        }
    }

    fn rand<R: Rng>(rng: &mut R) -> Four {
        Four {
            high: rng.random_range(0..2u64) == 1,
            low: rng.random_range(0..2u64) == 1,
        }
    }

    ghost field_laws = { four_laws };

    ghost zero_law = { refl };

    ghost one_law = { refl };

    ghost equality_law = { four_equality };

    ghost clone_law = { λ a b e. e };

    ghost default_law = { λ a e. e };

    ghost from_law = { λ n r fits e. e };

    ghost can_add_law = { λ a b. tt };

    ghost add_law = { λ a b r e. e };

    ghost can_sub_law = { λ a b. tt };

    ghost sub_law = { λ a b r e. e };

    ghost can_mul_law = { λ a b. tt };

    ghost mul_law = { λ a b r e. e };

    ghost can_add_assign_law = { λ a b. tt };

    ghost add_assign_law = { λ a b r e. e };

    ghost can_sub_assign_law = { λ a b. tt };

    ghost sub_assign_law = { λ a b r e. e };

    ghost can_mul_assign_law = { λ a b. tt };

    ghost mul_assign_law = { λ a b r e. e };

    ghost can_neg_law = { λ a. tt };

    ghost neg_law = { λ a r e. e };

    ghost elements_law = { λ _. four_elements };

    ghost modes_law = { λ _ _. one_format _ };

    ghost memory_law = { λ m. m };
}

impl DomainCoeff<Four> for Four {
    ghost Meaning = { Self };

    ghost meaning = { λ x. x };

    ghost group = { itself four };

    ghost module_laws = { four_module };

    ghost equality_meaning = { four_equality };

    ghost clone_meaning = { λ a b e. e };

    ghost zero_meaning = { refl };

    ghost can_add_meaning = { λ a b. tt };

    ghost add_meaning = { λ a b r e. e };

    ghost can_sub_meaning = { λ a b. tt };

    ghost sub_meaning = { λ a b r e. e };

    ghost can_add_assign_meaning = { λ a b. tt };

    ghost add_assign_meaning = { λ a b r e. e };

    ghost can_sub_assign_meaning = { λ a b. tt };

    ghost sub_assign_meaning = { λ a b r e. e };

    ghost can_mul_assign_meaning = { λ a f. tt };

    ghost mul_assign_meaning = { λ a f r e. e ∙ four_laws.times_comm a f };
}

impl FftField for Four {
    ghost adicity = { thirds };

    ghost root = { root_of_four };

    const GENERATOR: Four = Four {
        high: true,
        low: false,
    };

    ghost GENERATOR = { bits true false };

    const TWO_ADICITY: u32 = 0;

    ghost TWO_ADICITY = { 0 };

    const TWO_ADIC_ROOT_OF_UNITY: Four = Four {
        high: false,
        low: true,
    };

    ghost TWO_ADIC_ROOT_OF_UNITY = { four.one };

    const SMALL_SUBGROUP_BASE: Option<u32> = Some(3);

    ghost SMALL_SUBGROUP_BASE = { Some 3 };

    const SMALL_SUBGROUP_BASE_ADICITY: Option<u32> = Some(1);

    ghost SMALL_SUBGROUP_BASE_ADICITY = { Some 1 };

    const LARGE_SUBGROUP_ROOT_OF_UNITY: Option<Four> = Some(Four {
        high: true,
        low: false,
    });

    ghost LARGE_SUBGROUP_ROOT_OF_UNITY = { Some (bits true false) };

    fn get_root_of_unity(n: u64) -> Option<Four> {
        if n == 1 {
            Some(Four::one())
        } else if n == 3 {
            Some(Four::GENERATOR)
        } else {
            None
        }
    }

    ghost adicity_law = { refl };

    ghost together_law = { ((λ h. refl), (λ h. refl)) };

    ghost roots_law = { four_roots };

    ghost greatest_law = { four_greatest };

    ghost generator_law = { λ e. true≢false (ap (λ x. x.high) e) };

    ghost itself_law = { four_itself };
}
