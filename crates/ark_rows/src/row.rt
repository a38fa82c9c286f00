//! Elements side by side.

ghost use Rattle.std.specs.Prelude.{◌≡◌, ℕ, ◌<◌, length, get_or, slice_set};

use ark_traits::{DomainCoeff, Field, Zero};
use std::alloc::AllocError;
use std::ops::{Add, AddAssign, MulAssign, Sub, SubAssign};

/// `N` elements of a field, which operations take lane by lane: a module over the field, whose values are
/// functions from lanes to elements. The loops over lanes are of a length known when the program is compiled,
/// so two elements or more are taken at once; four to sixteen lanes are the quickest.
#[derive_where(Copy, Debug, PartialEq, Eq, Hash; F)]
pub struct Row<F, const N: usize> {
    items: [F; N],
    ghost whole: { length items ≡ N },
}

impl<F: Copy, const N: usize> Clone for Row<F, N> {
    ghost is_clone = { λ a b. b ≡ a };

    ghost is_infallible = { λ _. Unit {0} };

    fn clone(&self) -> Result<Self, AllocError> {
        Ok(*self)
    }
}

impl<F: Field, const N: usize> Row<F, N> {
    ghost use Rattle.ark_rows.specs.Row.{row_elements};

    /// The elements, that of lane 0 first.
    pub fn new(items: [F; N]) -> Self
        ensures { row_elements result ≡ items }
    {
        Row { items }
    }

    /// The elements of a slice of `N`.
    pub fn from_slice(items: &[F]) -> Self
        requires { length items.now ≡ N }
        ensures { row_elements result ≡ items.now }
    {
        let mut row = Row::zero();
        for i in 0..N {
            row.set(i, items[i]);
        }
        row
    }

    /// All elements.
    pub fn as_slice(&self) -> &[F]
        ensures { result.now ≡ row_elements self.now }
    {
        self.items.as_slice()
    }

    /// All elements.
    pub fn to_array(self) -> [F; N]
        ensures { result ≡ row_elements self }
    {
        self.items
    }

    /// The element of a lane.
    pub fn get(&self, i: usize) -> F
        requires { i < N }
        ensures { (d : F) → result ≡ get_or (row_elements self.now) i d }
    {
        self.items[i]
    }

    /// Puts an element into a lane.
    pub fn set(&mut self, i: usize, item: F)
        requires { i < N }
        ensures { row_elements self.new ≡ slice_set (row_elements self.old) i item }
    {
        self.items[i] = item;
    }
}

impl<F: Field, const N: usize> Zero for Row<F, N> {
    ghost use Rattle.ark_rows.specs.Row.{zero_row};

    ghost zero = { zero_row F.field };

    fn zero() -> Self {
        Row {
            items: [F::zero(); N],
        }
    }

    fn is_zero(&self) -> bool {
        *self == Self::zero()
    }
}

impl<F: Field, const N: usize> Add<Row<F, N>> for Row<F, N> {
    ghost use Rattle.ark_rows.specs.Row.{IsSum};

    type Output = Row<F, N>;

    ghost add_gives = { IsSum F.field };

    fn add(self, rhs: Row<F, N>) -> Row<F, N> {
        let mut sum = self;
        sum += rhs;
        sum
    }
}

impl<F: Field, const N: usize> Sub<Row<F, N>> for Row<F, N> {
    ghost use Rattle.ark_rows.specs.Row.{IsDifference};

    type Output = Row<F, N>;

    ghost sub_gives = { IsDifference F.field };

    fn sub(self, rhs: Row<F, N>) -> Row<F, N> {
        let mut difference = self;
        difference -= rhs;
        difference
    }
}

impl<F: Field, const N: usize> AddAssign<Row<F, N>> for Row<F, N> {
    ghost use Rattle.ark_rows.specs.Row.{IsSum};

    ghost add_assign_gives = { IsSum F.field };

    fn add_assign(&mut self, rhs: Row<F, N>) {
        for i in 0..N {
            self.items[i] = self.items[i] + rhs.items[i];
        }
    }
}

impl<F: Field, const N: usize> SubAssign<Row<F, N>> for Row<F, N> {
    ghost use Rattle.ark_rows.specs.Row.{IsDifference};

    ghost sub_assign_gives = { IsDifference F.field };

    fn sub_assign(&mut self, rhs: Row<F, N>) {
        for i in 0..N {
            self.items[i] = self.items[i] - rhs.items[i];
        }
    }
}

impl<F: Field, const N: usize> MulAssign<F> for Row<F, N> {
    ghost use Rattle.ark_rows.specs.Row.{IsMultiple};

    ghost mul_assign_gives = { λ a f r. IsMultiple F.field f a r };

    fn mul_assign(&mut self, factor: F) {
        for i in 0..N {
            self.items[i] = factor * self.items[i];
        }
    }
}

impl<F: Field, const N: usize> DomainCoeff<F> for Row<F, N> {
    ghost use Rattle.ark_rows.specs.Row.{lanes};
    ghost use Rattle.ark_rows.specs.Lanewise.{lanewise};
    ghost use Rattle.ark_rows.specs.RowLaws.{lanewise_is_module, lanes_Decides, cloned, of_zeros, of_sum};
    ghost use Rattle.ark_rows.specs.RowLaws.{of_difference, of_multiple};
    ghost use Rattle.ark_math.proofs.Algebra.Groups.{itself_is_module};
    ghost use Rattle.ark_math.specs.Module.{itself};

    ghost Meaning = { ℕ → F };

    ghost meaning = { lanes F.field };

    ghost group = { lanewise (itself F.field) };

    ghost module_laws = { lanewise_is_module (itself_is_module F.field F.field_laws) };

    ghost equality_meaning = { lanes_Decides F.field F.equality_law };

    ghost clone_meaning = { cloned F.field };

    ghost zero_meaning = { of_zeros N F.field };

    ghost can_add_meaning = { λ a b. tt };

    ghost add_meaning = { of_sum F.field F.field_laws };

    ghost can_sub_meaning = { λ a b. tt };

    ghost sub_meaning = { of_difference F.field F.field_laws };

    ghost can_add_assign_meaning = { λ a b. tt };

    ghost add_assign_meaning = { of_sum F.field F.field_laws };

    ghost can_sub_assign_meaning = { λ a b. tt };

    ghost sub_assign_meaning = { of_difference F.field F.field_laws };

    ghost can_mul_assign_meaning = { λ a f. tt };

    ghost mul_assign_meaning = { of_multiple F.field F.field_laws };
}
