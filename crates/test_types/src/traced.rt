//! Elements that remember which products they were made of.

ghost use Rattle.std.specs.Prelude.{◌≡◌, false, replicate};
ghost use Rattle.ark_math.specs.Field.{minus};
ghost use Rattle.ark_math.specs.Module.{itself};

use crate::numbered::Numbered;
use ark_base::{DomainCoeff, Zero};
use std::alloc::AllocError;
use std::ops::{Add, AddAssign, MulAssign, Sub, SubAssign};

// How many products an element can remember.
const ROOM: usize = 256;

/// A set of products, each by the low words of its two factors' numbers.
#[derive(Clone, Copy, Debug)]
pub struct Products {
    count: usize,
    pairs: [(u64, u64); ROOM],
    /// Whether one product too many was told.
    overfull: bool,
}

impl Products {
    /// No product.
    pub fn none() -> Products
        ensures { result ≡ record { count = 0; pairs = replicate 256 (0, 0); overfull = false } }
    {
        Products {
            count: 0,
            pairs: [(0, 0); ROOM],
            overfull: false,
        }
    }

    /// How many there are, and `None` where it was one too many.
    pub fn count(&self) -> Option<usize> {
        if self.overfull {
            None
        } else {
            Some(self.count)
        }
    }

    /// Adds one product.
    pub fn insert(&mut self, pair: (u64, u64)) {
        if self
            .pairs
            .iter()
            .take(self.count)
            .any(|known| *known == pair)
        {
            return;
        }
        match self.pairs.get_mut(self.count) {
            Some(place) => {
                *place = pair;
                self.count = self.count.saturating_add(1);
            }
            None => self.overfull = true,
        }
    }

    /// Adds those of another set.
    pub fn join(&mut self, other: &Products) {
        for i in 0..other.count.min(ROOM) {
            self.insert(other.pairs[i]);
        }
        self.overfull = self.overfull || other.overfull;
    }
}

/// An element with the distinct products behind it. A sum has those of both operands, a product by a factor one more.
/// It means the element alone.
#[derive_where(Copy, Debug, PartialEq; F)]
pub struct Traced<F: Numbered> {
    pub value: F,
    #[derive_where(skip(EqHashOrd))]
    pub products: Products,
}

impl<F: Numbered> Clone for Traced<F> {
    ghost is_clone = { λ a b. b ≡ a };

    ghost is_infallible = { λ _. Unit {0} };

    fn clone(&self) -> Result<Self, AllocError> {
        Ok(*self)
    }
}

impl<F: Numbered> Traced<F> {
    /// An element with no product behind it.
    pub fn new(value: F) -> Traced<F> {
        Traced {
            value,
            products: Products::none(),
        }
    }
}

impl<F: Numbered> Zero for Traced<F> {
    ghost zero = { record { value = F.field.zero; products = record { count = 0; pairs = replicate 256 (0, 0); overfull = false } } };

    fn zero() -> Self {
        Traced {
            value: F::zero(),
            products: Products::none(),
        }
    }

    fn is_zero(&self) -> bool {
        *self == Self::zero()
    }
}

impl<F: Numbered> AddAssign<Traced<F>> for Traced<F> {
    ghost add_assign_gives = { λ a b r. r.value ≡ F.field.plus a.value b.value };

    fn add_assign(&mut self, rhs: Traced<F>) {
        self.value += rhs.value;
        self.products.join(&rhs.products);
    }
}

impl<F: Numbered> SubAssign<Traced<F>> for Traced<F> {
    ghost sub_assign_gives = { λ a b r. r.value ≡ minus F.field a.value b.value };

    fn sub_assign(&mut self, rhs: Traced<F>) {
        self.value -= rhs.value;
        self.products.join(&rhs.products);
    }
}

impl<F: Numbered> Add<Traced<F>> for Traced<F> {
    type Output = Traced<F>;

    ghost add_gives = { λ a b r. r.value ≡ F.field.plus a.value b.value };

    fn add(self, rhs: Traced<F>) -> Traced<F> {
        let mut sum = self;
        sum += rhs;
        sum
    }
}

impl<F: Numbered> Sub<Traced<F>> for Traced<F> {
    type Output = Traced<F>;

    ghost sub_gives = { λ a b r. r.value ≡ minus F.field a.value b.value };

    fn sub(self, rhs: Traced<F>) -> Traced<F> {
        let mut difference = self;
        difference -= rhs;
        difference
    }
}

impl<F: Numbered> MulAssign<F> for Traced<F> {
    ghost mul_assign_gives = { λ a f r. r.value ≡ F.field.times f a.value };

    fn mul_assign(&mut self, factor: F) {
        self.products
            .insert((self.value.low_word(), factor.low_word()));
        self.value = factor * self.value;
    }
}

impl<F: Numbered> DomainCoeff<F> for Traced<F> {
    ghost use Rattle.std.proofs.Common.{refl, ap};
    ghost use Rattle.ark_math.proofs.Algebra.Groups.{itself_is_module};

    ghost Meaning = { F };

    ghost meaning = { λ v. v.value };

    ghost group = { itself F.field };

    ghost module_laws = { itself_is_module F.field F.field_laws };

    ghost equality_meaning = { λ a b. F.equality_law a.value b.value };

    ghost clone_meaning = { λ a b e. ap (λ v. v.value) e };

    ghost zero_meaning = { refl };

    ghost can_add_meaning = { λ a b. tt };

    ghost add_meaning = { λ a b r e. e };

    ghost can_sub_meaning = { λ a b. tt };

    ghost sub_meaning = { λ a b r e. e };

    ghost can_add_assign_meaning = { λ a b. tt };

    ghost add_assign_meaning = { λ a b r e. e };

    ghost can_sub_assign_meaning = { λ a b. tt };

    ghost sub_assign_meaning = { λ a b r e. e };

    ghost can_mul_assign_meaning = { λ a f. tt };

    ghost mul_assign_meaning = { λ a f r e. e };
}
