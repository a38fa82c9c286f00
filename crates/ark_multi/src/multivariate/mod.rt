//! Terms, and polynomials by the coefficients of their terms.

ghost use Rattle.std.specs.Prelude.{◌≡◌, ◌↔◌, ◌⊎◌, ◌≤◌, ◌^◌, ℕ, List, [], length, map};
ghost use Rattle.std.specs.Prelude.{Decides, IfOk, IfErr, IsOkUnless, IsTrue};
ghost use Rattle.ark_math_formats.specs.Format.{Tells};
ghost use Rattle.ark_math_formats.specs.Format.{AreAlike};
ghost use Rattle.ark_math_variables.specs.Term.{IsTerm, IsWithin, power_of, term_value, total_degree};

mod merging;
mod sparse;
mod sparse_term;

use ark_tables::powers::is_within;
use ark_traits::{CanonicalDeserialize, CanonicalSerialize, Field, PolyError};
pub use sparse::SparsePolynomial;
pub use sparse_term::SparseTerm;
use std::alloc::Global;
use std::fmt::Debug;
use std::hash::Hash;

/// A term: a product of powers of variables, which are told by their numbers. Its order is total, and two
/// terms are equal, and hash equally, exactly where their pairs are the same. In bytes a spelling tells the
/// pairs, and both modes are the same.
pub trait Term: Clone + Ord + Hash + Debug + Drop + CanonicalSerialize + CanonicalDeserialize {
    ghost use Rattle.ark_bytes.specs.declared.compress.Compress.{Compress};

    // What `pairs()` shows.
    ghost listed: { Self → List (ℕ × ℕ) };

    /// The product of these powers, given by variable and power in any order: powers of one variable are
    /// added up, and powers of 0 left out; no pairs give the constant term. `Overflow` exactly where the
    /// total of all powers is past `usize::MAX`, judged before memory is asked for.
    fn new(alloc: Global, powers: Vec<(usize, usize)>) -> Result<Self, PolyError>
        ensures term { IfOk result (λ t. IsTerm (listed t)) }
        ensures powers { IfOk result (λ t. (v : ℕ) → power_of (listed t) v ≡ power_of powers.items v) }
        ensures overflow { (result ≡ Err PolyError.Overflow) ↔ (2 ^ 64 ≤ total_degree powers.items) }
        ensures errors { IfErr result (λ e. (e ≡ PolyError.Memory) ⊎ (e ≡ PolyError.Overflow)) };

    /// The variables with their powers, by rising variables, without powers of 0.
    fn pairs(&self) -> &[(usize, usize)]
        ensures same { result.now ≡ listed self.now }
        ensures term { IsTerm result.now };

    /// The sum of all powers.
    fn degree(&self) -> usize
        ensures { result ≡ total_degree (listed self.now) };

    /// The variables, rising.
    fn vars(&self, alloc: Global) -> Result<Vec<usize>, PolyError>
        ensures variables { IfOk result (λ vars. vars.items ≡ map (λ p. p.0) (listed self.now)) }
        ensures memory { IsOkUnless result PolyError.Memory };

    /// The powers, in the order of the variables.
    fn powers(&self, alloc: Global) -> Result<Vec<usize>, PolyError>
        ensures powers { IfOk result (λ powers. powers.items ≡ map (λ p. p.1) (listed self.now)) }
        ensures memory { IsOkUnless result PolyError.Memory };

    /// Whether no variable stands in it.
    fn is_constant(&self) -> bool
        ensures { IsTrue result ↔ (listed self.now ≡ []) };

    /// Whether all its variables are below this number.
    final fn is_within(&self, num_vars: usize) -> bool
        ensures { IsTrue result ↔ IsWithin num_vars (listed self.now) }
    {
        is_within(self.pairs(), num_vars)
    }

    /// The product of the point's items to the powers of their variables. The point has an item for each
    /// variable.
    fn evaluate<F: Field>(&self, point: &[F]) -> F
        requires { IsWithin (length point.now) (listed self.now) }
        ensures { result ≡ term_value F.field (listed self.now) point.now };

    ghost equality_law: { (s t : Self) → Decides (Self.eq s t) (listed s ≡ listed t) };

    ghost clone_law: { (s t : Self) → Self.is_clone s t → listed t ≡ listed s };

    ghost pairs_law: { (mode : Compress) → Tells listed (Self.format mode) };

    ghost modes_law: { (mode other : Compress) → AreAlike (Self.format mode) (Self.format other) };
}
