//! What all forms of polynomials share.

ghost use Rattle.std.specs.Prelude.{◌≡◌, ◌↔◌, ℕ, max, Decides, IsOk, IsTrue, IfOk, OnOk, OnErr, IsOkUnless};
ghost use Rattle.ark_math.specs.Forms.{IsPolynomials};
ghost use Rattle.ark_math.specs.Module.{ModuleOn};

use crate::error::PolyError;
use crate::field::Field;
use ark_bytes::{CanonicalDeserialize, CanonicalSerialize};
use std::alloc::Global;
use std::fmt::Debug;
use std::hash::Hash;

/// A polynomial over a field, in any number of variables. Two of them are equal exactly where what they
/// denote is: the polynomial, with a multilinear extension its number of variables too.
///
/// A form may keep a number of variables that is no part of the polynomial; then a point fits by this number
/// alone, and a sum keeps the greater one. Two polynomials can be added where their forms have a sum of the
/// same kind.
pub trait Polynomial<F: Field>: Clone
    + Debug
    + Hash
    + Eq
    + Drop
    + CanonicalSerialize
    + CanonicalDeserialize {
    ghost use Rattle.ark_math_formats.specs.Format.{Tells};
    ghost use Rattle.ark_bytes.specs.declared.compress.Compress.{Compress};

    /// The points at which it is evaluated.
    type Point: Clone + Ord + Debug + Hash;

    ghost Meaning: { Type 0 };

    // The polynomial that a value denotes.
    ghost meaning: { Self → Meaning };

    ghost has_degree: { Meaning → ℕ → Type 0 };

    // The number of variables that a value keeps, 0 where its form keeps none.
    ghost variables: { Self → ℕ };

    // The points that fit where so many variables are kept.
    ghost fits: { ℕ → Self.Point → Type 0 };

    ghost has_value: { Meaning → Self.Point → F → Type 0 };

    // Whether evaluation takes no memory, and so never fails.
    ghost always_evaluates: { Type 0 };

    ghost addable: { Meaning → Meaning → Type 0 };

    // Zero, sums, opposites and multiples; a multiple by zero may keep the variables.
    ghost operations: { ModuleOn F Meaning };

    /// The total degree; 0 for zero. A multilinear extension answers its number of variables.
    fn degree(&self) -> usize
        ensures { has_degree (meaning self.now) result };

    /// Whether it can be evaluated at this point.
    fn point_fits(&self, point: &Self::Point) -> bool
        ensures { IsTrue result ↔ fits (variables self.now) point.now };

    /// The value at a point that fits. A form that keeps coefficients never fails.
    fn evaluate(&self, alloc: Global, point: &Self::Point) -> Result<F, PolyError>
        requires { fits (variables self.now) point.now }
        ensures value { IfOk result (λ y. has_value (meaning self.now) point.now y) }
        ensures succeeds { always_evaluates → IsOk result }
        ensures memory { IsOkUnless result PolyError.Memory };

    /// The zero polynomial.
    fn zero(alloc: Global) -> Result<Self, PolyError>
        ensures zero { IfOk result (λ p. meaning p ≡ operations.zero) }
        ensures variables { IfOk result (λ p. variables p ≡ 0) }
        ensures memory { IsOkUnless result PolyError.Memory };

    /// Whether it equals `zero`. A multilinear extension of zeros with variables doesn't.
    fn is_zero(&self) -> bool
        ensures { IsTrue result ↔ (meaning self.now ≡ operations.zero) };

    /// Whether it has a sum with the other one.
    fn addable(&self, other: &Self) -> bool
        ensures { IsTrue result ↔ addable (meaning self.now) (meaning other.now) };

    /// The sum of two polynomials that can be added. A point that fits both fits it.
    fn add(&self, alloc: Global, other: &Self) -> Result<Self, PolyError>
        requires { addable (meaning self.now) (meaning other.now) }
        ensures sum { IfOk result (λ p. meaning p ≡ operations.plus (meaning self.now) (meaning other.now)) }
        ensures variables { IfOk result (λ p. variables p ≡ max (variables self.now) (variables other.now)) }
        ensures memory { IsOkUnless result PolyError.Memory };

    /// The difference of two polynomials that can be added. A point that fits both fits it.
    fn sub(&self, alloc: Global, other: &Self) -> Result<Self, PolyError>
        requires { addable (meaning self.now) (meaning other.now) }
        ensures difference { IfOk result (λ p.
            meaning p ≡ operations.plus (meaning self.now) (operations.negated (meaning other.now))) }
        ensures variables { IfOk result (λ p. variables p ≡ max (variables self.now) (variables other.now)) }
        ensures memory { IsOkUnless result PolyError.Memory };

    /// The opposite, which the same points fit.
    fn neg(&self, alloc: Global) -> Result<Self, PolyError>
        ensures opposite { IfOk result (λ p. meaning p ≡ operations.negated (meaning self.now)) }
        ensures variables { IfOk result (λ p. variables p ≡ variables self.now) }
        ensures memory { IsOkUnless result PolyError.Memory };

    /// Adds one that it can be added to, in place. After an error it has the value that it had; a point that
    /// fits both fits it either way.
    fn add_assign(&mut self, alloc: Global, other: &Self) -> Result<(), PolyError>
        requires { addable (meaning self.old) (meaning other.now) }
        ensures sum { OnOk result (meaning self.new
            ≡ operations.plus (meaning self.old) (meaning other.now)) }
        ensures kept { OnErr result (self.new ≡ self.old) }
        ensures variables { OnOk result (variables self.new
            ≡ max (variables self.old) (variables other.now)) }
        ensures memory { IsOkUnless result PolyError.Memory };

    /// Subtracts one that it can be added to, in place. After an error it has the value that it had; a point
    /// that fits both fits it either way.
    fn sub_assign(&mut self, alloc: Global, other: &Self) -> Result<(), PolyError>
        requires { addable (meaning self.old) (meaning other.now) }
        ensures difference { OnOk result (meaning self.new
            ≡ operations.plus (meaning self.old) (operations.negated (meaning other.now))) }
        ensures kept { OnErr result (self.new ≡ self.old) }
        ensures variables { OnOk result (variables self.new
            ≡ max (variables self.old) (variables other.now)) }
        ensures memory { IsOkUnless result PolyError.Memory };

    /// Adds a multiple of one that it can be added to, in place. After an error it has the value that it had;
    /// a point that fits both fits it either way.
    fn add_assign_scaled(&mut self, alloc: Global, factor: F, other: &Self) -> Result<(), PolyError>
        requires { addable (meaning self.old) (meaning other.now) }
        ensures sum { OnOk result (meaning self.new
            ≡ operations.plus (meaning self.old) (operations.scale factor (meaning other.now))) }
        ensures kept { OnErr result (self.new ≡ self.old) }
        ensures variables { OnOk result (variables self.new
            ≡ max (variables self.old) (variables other.now)) }
        ensures memory { IsOkUnless result PolyError.Memory };

    ghost equality_law: { (a b : Self) → Decides (Self.eq a b) (meaning a ≡ meaning b) };

    ghost clone_law: { (a b : Self) → Self.is_clone a b → meaning b ≡ meaning a };

    ghost clone_variables: { (a b : Self) → Self.is_clone a b → variables b ≡ variables a };

    ghost fits_max: { (m n : ℕ) (x : Self.Point) → fits m x → fits n x → fits (max m n) x };

    ghost polynomial_laws: { IsPolynomials F.field operations addable has_degree has_value };

    // In each mode a spelling tells the polynomial, and the number of variables that its form keeps.
    ghost told: { (mode : Compress) → Tells meaning (Self.format mode) };

    ghost variables_told: { (mode : Compress) → Tells variables (Self.format mode) };
}
