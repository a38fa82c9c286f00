//! The prover of a sum-check.

ghost use Rattle.std.specs.Prelude.{◌≡◌, ◌↔◌, ℕ, ◌+◌, ◌-◌, ◌*◌, ◌^◌, ◌<◌, ◌≤◌, [], All, length, max};
ghost use Rattle.std.specs.Prelude.{IfOk, IfSome, IsOkUnless, IsTrue, is_some};

mod within;

use crate::addend::{Addend, are_within, is_product_of_all};
use crate::error::SumCheckError;
use crate::pairs::round_of_two;
use crate::sums::{degree_of_sum, round_of_sum, sum_of_products};
use crate::tables::bind_each;
use ark_traits::Field;
use std::alloc::Global;
use std::marker::Model;

/// A prover between two rounds: what is left of the tables of a sum of products, whose variables are bound
/// one after the other, the first one first. Bit i of an index is the value of variable i. Each table is
/// bound once a round, however many addends have it as a factor.
///
/// ```
/// let mut prover = Prover::new(num_vars, tables);
/// let values = prover.round(alloc)?; // to be sent; then the challenge comes
/// prover.bind(challenge);            // and so until no variable is left
/// ```
///
/// Contracts see the lists of the tables' values, the addends, and the number of variables left.
#[derive(Drop)]
pub struct Prover<F> {
    tables: Vec<Vec<F>>,
    // None where all tables make one product.
    addends: Option<Vec<Addend<F>>>,
    num_vars: usize,
}

impl<F> Model for Prover<F> {
    ghost use Rattle.ark_sum_check.specs.Lists.{AreSummed, as_summed};
    ghost use Rattle.ark_sum_check.specs.Provers.{Summed};

    ghost Value = { Summed F };

    ghost view = { λ p. as_summed p.tables.items p.addends p.num_vars };

    ghost invariant = { λ p. AreSummed p.tables.items p.addends p.num_vars };
}

impl<F: Field> Prover<F> {
    ghost use Rattle.ark_sum_check.specs.Cube.{bound_to, degree_of, product_of, sum_value, sum_with};
    ghost use Rattle.ark_sum_check.specs.Lists.{AreWithin, as_products, as_tables};
    ghost use Rattle.ark_sum_check.specs.Provers.{sum_of, variables_of};
    ghost use Rattle.ark_sum_check.specs.Rounds.{IsTrueRound};

    /// The prover of the sum of the product of these factors, each of which is given by its `2^num_vars`
    /// values in the order of their indices, as `to_evaluations` of a dense or a sparse extension lists them.
    /// Takes no memory.
    pub fn new(num_vars: usize, tables: Vec<Vec<F>>) -> Self
        requires few { num_vars < 64 }
        requires whole { All (λ t. length t.items ≡ 2 ^ num_vars) tables.items }
        ensures sum { sum_of F.field result ≡ product_of F.field (as_tables F.field tables.items) }
        ensures variables { variables_of result ≡ num_vars }
    {
        Prover {
            tables,
            addends: None,
            num_vars,
        }
    }

    /// The prover of the sum of these addends, products of these tables. `None` where an index is that of no
    /// table. The one product of all tables is taken as `new` takes it, whose rounds are quicker. Takes no
    /// memory.
    pub fn of_sum(num_vars: usize, tables: Vec<Vec<F>>, addends: Vec<Addend<F>>) -> Option<Self>
        requires few { num_vars < 64 }
        requires whole { All (λ t. length t.items ≡ 2 ^ num_vars) tables.items }
        ensures sum { IfSome result (λ prover. sum_of F.field prover
            ≡ sum_with F.field (as_tables F.field tables.items) (as_products addends.items)) }
        ensures variables { IfSome result (λ prover. variables_of prover ≡ num_vars) }
        ensures within { IsTrue (is_some result) ↔ AreWithin (length tables.items) addends.items }
    {
        if !are_within(&addends, tables.len()) {
            return None;
        }
        if is_product_of_all(&addends, tables.len()) {
            return Some(Prover::new(num_vars, tables));
        }
        Some(Prover {
            tables,
            addends: Some(addends),
            num_vars,
        })
    }

    /// How many variables are left.
    pub fn num_vars(&self) -> usize
        ensures { result ≡ variables_of self.now }
    {
        self.num_vars
    }

    /// The degree that a round's polynomial may have: how many factors the longest addend has, and one at
    /// least.
    pub fn degree(&self) -> usize
        ensures degree { result ≡ max 1 (degree_of (sum_of F.field self.now)) }
        ensures few { result < 2 ^ 63 }
    {
        degree_of_sum(&self.addends, self.tables.len()).max(1)
    }

    /// The round that comes next: the sums over the other variables where the first one is 0, 1, .., d, for
    /// the degree d, in one pass over what is left of the tables. Memory is taken for these sums and, unless
    /// the prover was made by `new` of two tables, for two elements for each table.
    pub fn round(&self, alloc: Global) -> Result<Vec<F>, SumCheckError>
        requires { 0 < variables_of self.now }
        ensures truth { IfOk result (λ values. IsTrueRound F.field (max 1 (degree_of (sum_of F.field self.now)))
            (variables_of self.now - 1) (sum_of F.field self.now) values.items) }
        ensures memory { IsOkUnless result SumCheckError.Memory }
    {
        let half = half(self.num_vars);
        if self.addends.is_none() && self.tables.len() == 2 {
            return round_of_two(alloc, &self.tables[0], &self.tables[1], half);
        }
        round_of_sum(alloc, &self.tables, &self.addends, self.degree(), half)
    }

    /// The first round, as `round` makes it, and no values where there is no variable: for a caller who needs the
    /// sum over the cube, which is that of the values at 0 and 1, and then hands the round on.
    pub fn first_round(&self, alloc: Global) -> Result<Vec<F>, SumCheckError>
        ensures truth { 0 < variables_of self.now → IfOk result (λ values.
            IsTrueRound F.field (max 1 (degree_of (sum_of F.field self.now)))
            (variables_of self.now - 1) (sum_of F.field self.now) values.items) }
        ensures memory { IsOkUnless result SumCheckError.Memory }
    {
        if self.num_vars == 0 {
            return Ok(Vec::new(alloc));
        }
        self.round(alloc)
    }

    /// Binds the first variable to the challenge, in each table in place.
    pub fn bind(&mut self, challenge: F)
        requires { 0 < variables_of self.old }
        ensures sum { sum_of F.field self.new ≡ bound_to F.field challenge (sum_of F.field self.old) }
        ensures variables { variables_of self.new ≡ variables_of self.old - 1 }
    {
        let half = half(self.num_vars);
        bind_each(self.tables.as_mut_slice(), half, challenge);
        self.num_vars -= 1;
    }

    /// The sum's value once no variable is left. Takes memory for an element for each table.
    pub fn last_value(&self, alloc: Global) -> Result<F, SumCheckError>
        requires { variables_of self.now ≡ 0 }
        ensures value { IfOk result (λ value. value ≡ sum_value F.field (sum_of F.field self.now) []) }
        ensures memory { IsOkUnless result SumCheckError.Memory }
    {
        let mut values = Vec::with_capacity(alloc, self.tables.len())?;
        for table in &self.tables {
            values.push(table[0])?;
        }
        Ok(sum_of_products(&self.addends, &values))
    }
}

// How many corners there are where the first of the variables has one value.
fn half(num_vars: usize) -> usize
    requires positive { 0 < num_vars }
    requires few { num_vars < 64 }
    ensures power { result ≡ 2 ^ (num_vars - 1) }
    ensures whole { 2 ^ num_vars ≡ 2 * result }
    ensures few { result ≤ 2 ^ 62 }
{
    1 << (num_vars - 1)
}
