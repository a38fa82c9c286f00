//! The prover of a sum-check of one factor that is zero at most corners.

ghost use Rattle.std.specs.Prelude.{◌≡◌, ◌-◌, ◌^◌, ◌<◌, ◌≤◌, [], All, length, IfOk, IsOkUnless};

use crate::entries::{bind_entries, sums_of_sides};
use crate::error::SumCheckError;
use ark_traits::Field;
use std::alloc::Global;
use std::marker::Model;

/// A prover between two rounds of a sum-check of one factor, given by its entries, which are pairs of index
/// and value: the table is zero at all other indices, and the values of entries at one index add up. The
/// variables are bound in the order of a `Prover`, and the verifier is the same.
///
/// A round and a binding take one pass over the entries each, however many corners the cube has, and entries
/// don't become more: where two that stand side by side come to one index, they are merged. So let indices
/// rise: then they do so after each binding, and there is never more than one entry for each corner.
///
/// ```
/// let mut prover = SparseProver::new(num_vars, entries);
/// let values = prover.round(alloc)?; // to be sent; then the challenge comes
/// prover.bind(challenge);            // and so until no variable is left
/// ```
///
/// Contracts see the entries, and the number of variables left.
#[derive(Drop)]
pub struct SparseProver<F> {
    entries: Vec<(usize, F)>,
    num_vars: usize,
}

impl<F> Model for SparseProver<F> {
    ghost use Rattle.std.specs.Prelude.{◌^◌, ◌<◌, All};
    ghost use Rattle.ark_sum_check.specs.Provers.{Entries};

    ghost Value = { Entries F };

    ghost view = { λ p. record { entries = p.entries.items; variables = p.num_vars } };

    ghost invariant = { λ p. All (λ e. e.0 < 2 ^ p.num_vars) p.entries.items };
}

impl<F: Field> SparseProver<F> {
    ghost use Rattle.ark_sum_check.specs.Cube.{bound_to, sum_value};
    ghost use Rattle.ark_sum_check.specs.Provers.{AreRising, factor_of};
    ghost use Rattle.ark_sum_check.specs.Rounds.{IsTrueRound};

    /// The prover of the sum of a factor's values over all corners, by its entries. Takes no memory.
    pub fn new(num_vars: usize, entries: Vec<(usize, F)>) -> Self
        requires below { All (λ e. e.0 < 2 ^ num_vars) entries.items }
        ensures entries { result.entries ≡ entries.items }
        ensures variables { result.variables ≡ num_vars }
    {
        SparseProver { entries, num_vars }
    }

    /// How many variables are left.
    pub fn num_vars(&self) -> usize
        ensures { result ≡ self.now.variables }
    {
        self.num_vars
    }

    /// The round that comes next, whose polynomial is of degree 1: the sums over the other variables where
    /// the first one is 0 and where it is 1, in one pass over the entries. Memory is taken for these two
    /// alone.
    pub fn round(&self, alloc: Global) -> Result<Vec<F>, SumCheckError>
        requires { 0 < self.now.variables }
        ensures truth { IfOk result (λ values. IsTrueRound F.field 1 (self.now.variables - 1)
            (factor_of F.field self.now) values.items) }
        ensures memory { IsOkUnless result SumCheckError.Memory }
    {
        let (zero, one) = sums_of_sides(&self.entries);
        let mut values = Vec::with_capacity(alloc, 2)?;
        values.push(zero)?;
        values.push(one)?;
        Ok(values)
    }

    /// Binds the first variable to the challenge, in one pass over the entries and in place.
    pub fn bind(&mut self, challenge: F)
        requires { 0 < self.old.variables }
        ensures sum { factor_of F.field self.new ≡ bound_to F.field challenge (factor_of F.field self.old) }
        ensures variables { self.new.variables ≡ self.old.variables - 1 }
        ensures rising { AreRising self.old.entries → AreRising self.new.entries }
        ensures few { length self.new.entries ≤ length self.old.entries }
    {
        bind_entries(&mut self.entries, challenge);
        self.num_vars -= 1;
    }

    /// The factor's value once no variable is left.
    pub fn last_value(&self) -> F
        requires { self.now.variables ≡ 0 }
        ensures { result ≡ sum_value F.field (factor_of F.field self.now) [] }
    {
        let (value, _) = sums_of_sides(&self.entries);
        value
    }
}
