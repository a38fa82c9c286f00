//! Values that are added, taken from one another, and scaled with a count: all that a kernel does with them.

ghost use Rattle.std.specs.Prelude.{◌≡◌, Decides};
ghost use Rattle.ark_math.specs.Cost.{counts, GrowsBy};
ghost use Rattle.ark_math.specs.Module.{ModuleOn, IsModule};

use crate::field::{DomainCoeff, Field, Zero};
use crate::work::Work;
use std::fmt::Debug;
use std::ops::{Add, AddAssign, Sub, SubAssign};

/// A module's values without `*=`: `scale` alone multiplies one, and counts it. So in code over a `Summand` a
/// product that is not counted does not compile. Each `DomainCoeff` is one.
pub trait Summand<F: Field>: Copy
    + Add<Self, Output = Self>
    + Sub<Self, Output = Self>
    + AddAssign<Self>
    + SubAssign<Self>
    + Zero
    + Debug
    + PartialEq {
    ghost Meaning: { Type 0 };

    ghost meaning: { Self → Meaning };

    ghost group: { ModuleOn F Meaning };

    /// Multiplies the value by a field element, and counts a product. `Work::scale` calls it.
    fn scale(&mut self, factor: F, work: &mut Work)
        ensures product { meaning self.new ≡ group.scale factor (meaning self.old) }
        ensures counted { GrowsBy (counts 1 0 0) work.old work.new };

    ghost module_laws: { IsModule F.field group };

    ghost equality_meaning: { (a b : Self) → Decides (Self.eq a b) (meaning a ≡ meaning b) };

    ghost clone_meaning: { (a b : Self) → Self.is_clone a b → meaning b ≡ meaning a };

    ghost zero_meaning: { meaning Self.zero ≡ group.zero };

    ghost can_add_meaning: { (a b : Self) → Self.can_add a b };

    ghost add_meaning: { (a b r : Self) → Self.add_gives a b r
        → meaning r ≡ group.plus (meaning a) (meaning b) };

    ghost can_sub_meaning: { (a b : Self) → Self.can_sub a b };

    ghost sub_meaning: { (a b r : Self) → Self.sub_gives a b r
        → meaning r ≡ group.plus (meaning a) (group.negated (meaning b)) };

    ghost can_add_assign_meaning: { (a b : Self) → Self.can_add_assign a b };

    ghost add_assign_meaning: { (a b r : Self) → Self.add_assign_gives a b r
        → meaning r ≡ group.plus (meaning a) (meaning b) };

    ghost can_sub_assign_meaning: { (a b : Self) → Self.can_sub_assign a b };

    ghost sub_assign_meaning: { (a b r : Self) → Self.sub_assign_gives a b r
        → meaning r ≡ group.plus (meaning a) (group.negated (meaning b)) };
}

impl<F: Field, T: DomainCoeff<F>> Summand<F> for T {
    ghost Meaning = { T.Meaning };

    ghost meaning = { T.meaning };

    ghost group = { T.group };

    #[inline(always)]
    fn scale(&mut self, factor: F, work: &mut Work) {
        *self *= factor;
        work.product();
    }

    ghost module_laws = { T.module_laws };

    ghost equality_meaning = { T.equality_meaning };

    ghost clone_meaning = { T.clone_meaning };

    ghost zero_meaning = { T.zero_meaning };

    ghost can_add_meaning = { T.can_add_meaning };

    ghost add_meaning = { T.add_meaning };

    ghost can_sub_meaning = { T.can_sub_meaning };

    ghost sub_meaning = { T.sub_meaning };

    ghost can_add_assign_meaning = { T.can_add_assign_meaning };

    ghost add_assign_meaning = { T.add_assign_meaning };

    ghost can_sub_assign_meaning = { T.can_sub_assign_meaning };

    ghost sub_assign_meaning = { T.sub_assign_meaning };
}
