//! Multilinear extensions of tables.

ghost use Rattle.std.specs.Prelude.{◌≡◌, ◌↔◌, ◌-◌, ◌<◌, ◌≤◌, ◌^◌, ℕ, List, length};
ghost use Rattle.std.specs.Prelude.{IfOk, IfSome, IsOkUnless, IsTrue, Vec};
ghost use Rattle.std.specs.declared.alloc.Global.{Global};
ghost use Rattle.ark_math_variables.specs.Multilinear.{Table, table_operations};
ghost use Rattle.ark_math.specs.Forms.{IsEmbedding, IsShown};
ghost use Rattle.ark_math_variables.specs.Multilinear.{AreAddable, AreWindows, exchanged, extension, fixed};
ghost use Rattle.ark_math.specs.Univariate.{IsBelow, of_list};

mod dense;
mod sparse;

use ark_traits::{Field, PolyError, Polynomial};
pub use dense::DenseMultilinearExtension;
use rand::Rng;
pub use sparse::SparseMultilinearExtension;
use std::alloc::Global;

/// The multilinear extension of a table: the polynomial in `num_vars` variables, with no power above one,
/// that has the table's values at the points whose items are zero or one. There are `2^num_vars` of these;
/// item i of the point with an index is bit i of the index.
///
/// A point fits where it has `num_vars` items, and the degree is `num_vars`. Two can be added where their
/// numbers of variables are equal, or one of them is zero of no variables; then the sum is the other one. Two
/// are equal where their numbers of variables and their tables are.
pub trait MultilinearExtension<F: Field>: Polynomial<F, Point = Vec<F>> {
    ghost use Rattle.std.proofs.Common.{ap, ◌∙◌};
    ghost use Rattle.ark_math.proofs.Callers.Forms.{embedding_shows};

    // The table that a value extends.
    ghost table: { Self → Table F };

    /// The number of variables, which is below 64.
    fn num_vars(&self) -> usize
        ensures { result ≡ Self.variables self.now };

    /// One of `num_vars` variables, below 64, with drawn values. A form that draws indices too tries each at
    /// most `tries` times, and answers `None` where none of these is new.
    fn rand<R: Rng>(
        alloc: Global,
        num_vars: usize,
        rng: &mut R,
        tries: usize,
    ) -> Result<Option<Self>, PolyError>
        requires { num_vars < 64 }
        ensures variables { IfOk result (λ drawn. IfSome drawn (λ p. Self.variables p ≡ num_vars)) }
        ensures memory { IsOkUnless result PolyError.Memory };

    /// Whether the `k` variables from `a` on can be exchanged with the `k` from `b` on: where `a` is `b`, or
    /// `k` is 0, or the lower ones end at or before the start of the higher ones, and these at or before
    /// `num_vars`.
    final fn relabel_fits(&self, a: usize, b: usize, k: usize) -> bool
        ensures { IsTrue result ↔ AreWindows (Self.variables self.now) a b k }
    {
        let lower = a.min(b);
        let higher = a.max(b);
        let num_vars = self.num_vars();
        a == b || k == 0 || (k <= higher - lower && higher <= num_vars && k <= num_vars - higher)
    }

    /// The extension with the `k` variables from `a` on and the `k` from `b` on exchanged: its value at a
    /// point is the old one at the point with these items exchanged.
    fn relabel(&self, alloc: Global, a: usize, b: usize, k: usize) -> Result<Self, PolyError>
        requires { AreWindows (Self.variables self.now) a b k }
        ensures values { IfOk result (λ p. (x : List F) → length x ≡ Self.variables self.now
            → extension F.field (table p).value x
            ≡ extension F.field (table self.now).value (exchanged F.field x a b k)) }
        ensures variables { IfOk result (λ p. Self.variables p ≡ Self.variables self.now) }
        ensures memory { IsOkUnless result PolyError.Memory };

    /// What is left when the first variables are bound to the items of `point`, of which there are at most
    /// `num_vars`.
    fn fix_variables(&self, alloc: Global, point: &[F]) -> Result<Self, PolyError>
        requires { length point.now ≤ Self.variables self.now }
        ensures values { IfOk result (λ p. (table p).value
            ≡ fixed F.field (table self.now).value point.now) }
        ensures variables { IfOk result (λ p. Self.variables p ≡ Self.variables self.now - length point.now) }
        ensures memory { IsOkUnless result PolyError.Memory };

    /// The table's values, in the order of their indices.
    fn to_evaluations(&self, alloc: Global) -> Result<Vec<F>, PolyError>
        ensures whole { IfOk result (λ v. length v.items ≡ 2 ^ Self.variables self.now) }
        ensures values { IfOk result (λ v. of_list F.field v.items ≡ (table self.now).value) }
        ensures memory { IsOkUnless result PolyError.Memory };

    // The table that a polynomial extends.
    ghost table_of: { Self.Polynomial.Meaning → Table F };

    ghost table_law: { (p : Self) → table_of (Self.meaning p) ≡ table p };

    ghost variables_law: { (p : Self) → Self.variables p ≡ (table p).variables };

    ghost few: { (p : Self) → (table p).variables < 64 };

    ghost below: { (p : Self) → IsBelow F.field (2 ^ (table p).variables) (table p).value };

    ghost tables_embed: { IsEmbedding Self.operations (table_operations F.field) table_of };

    ghost degree_table: { (a : Self.Polynomial.Meaning) (d : ℕ) → Self.has_degree a d
        ↔ (d ≡ (table_of a).variables) };

    ghost value_table: { (a : Self.Polynomial.Meaning) (x : Vec F Global) (y : F) → Self.has_value a x y
        ↔ (y ≡ extension F.field (table_of a).value x.items) };

    ghost fits_law: { (n : ℕ) (x : Vec F Global) → Self.fits n x ↔ (length x.items ≡ n) };

    ghost addable_law: { (a b : Self.Polynomial.Meaning) → Self.addable a b
        ↔ AreAddable F.field (table_of a) (table_of b) };

    // What calls say of meanings, said of tables.
    ghost by_tables: { IsShown Self.operations (table_operations F.field) Self.meaning table } = { embedding_shows
        table_of tables_embed table_law };

    ghost evaluate_is: { (p : Self) (x : Vec F Global) (y : F) → Self.has_value (Self.meaning p) x y
        → y ≡ extension F.field (table p).value x.items } = { λ p x y h. (value_table (Self.meaning p) x y).0 h
            ∙ ap (λ t. extension F.field t.value x.items) (table_law p) };

    ghost degree_is: { (p : Self) (d : ℕ) → Self.has_degree (Self.meaning p) d → d
        ≡ (table p).variables } = { λ p d h. (degree_table (Self.meaning p) d).0 h
            ∙ ap (λ t. t.variables) (table_law p) };
}
