//! Challenges of a greater field than that of the tables: the first round is made of the tables as they are,
//! and what is left of them lies in the greater field.

ghost use Rattle.std.specs.Prelude.{◌≡◌, ◌-◌, ◌*◌, ◌/◌, ◌<◌, ℕ, [], All, length, map, max};
ghost use Rattle.std.specs.Prelude.{IfOk, IsOkUnless};
ghost use Rattle.std.proofs.Common.{option_map};
ghost use Rattle.ark_sum_check.specs.Cube.{bound_to, degree_of, sum_with};
ghost use Rattle.ark_sum_check.specs.Embedded.{embedded_products, embedded_sum};
ghost use Rattle.ark_sum_check.specs.Lists.{AreWithin, FitTables, as_products, as_sum, as_tables};
ghost use Rattle.ark_sum_check.specs.Provers.{sum_of, variables_of};
ghost use Rattle.ark_sum_check.specs.Rounds.{IsTrueRound};

use crate::addend::Addend;
use crate::error::SumCheckError;
use crate::prover::Prover;
use ark_extensions::embedded::bind_first;
use ark_traits::{ExtensionOf, Field};
use std::alloc::{AllocError, Global};

impl<F: Field> Prover<F> {
    /// The round that comes next, as elements of a greater field: that of the prover there whose tables and
    /// coefficients are these, embedded. It is computed as `round` does, in `F`.
    pub fn round_within<E: ExtensionOf<F>>(&self, alloc: Global) -> Result<Vec<E>, SumCheckError>
        requires { 0 < variables_of self.now }
        ensures truth { IfOk result (λ values. IsTrueRound E.field (max 1 (degree_of (sum_of F.field self.now)))
            (variables_of self.now - 1) (embedded_sum E.within (sum_of F.field self.now)) values.items) }
        ensures memory { IsOkUnless result SumCheckError.Memory }
    {
        let values = self.round(alloc)?;
        self.embedded_round(alloc, &values)
    }

    // This round, as elements of a greater field.
    pub(crate) fn embedded_round<E: ExtensionOf<F>>(
        &self,
        alloc: Global,
        values: &[F],
    ) -> Result<Vec<E>, SumCheckError>
        requires some { 0 < variables_of self.now }
        requires truth { IsTrueRound F.field (max 1 (degree_of (sum_of F.field self.now)))
            (variables_of self.now - 1) (sum_of F.field self.now) values.now }
        ensures truth { IfOk result (λ embedded. IsTrueRound E.field
            (max 1 (degree_of (sum_of F.field self.now))) (variables_of self.now - 1)
            (embedded_sum E.within (sum_of F.field self.now)) embedded.items) }
        ensures memory { IsOkUnless result SumCheckError.Memory }
    {
        let embedded = embedded_values(alloc, values)?;
        Ok(embedded)
    }

    /// The prover that is left when the first variable is bound to a challenge of a greater field: its tables
    /// and coefficients lie there. A table takes one product by an element of `F` for each pair of its values.
    /// Memory is taken for the tables that are left, half as long as these, and for the addends.
    pub fn bind_within<E: ExtensionOf<F>>(
        &self,
        alloc: Global,
        challenge: E,
    ) -> Result<Prover<E>, SumCheckError>
        requires { 0 < variables_of self.now }
        ensures sum { IfOk result (λ left. sum_of E.field left
            ≡ bound_to E.field challenge (embedded_sum E.within (sum_of F.field self.now))) }
        ensures variables { IfOk result (λ left. variables_of left ≡ variables_of self.now - 1) }
        ensures memory { IsOkUnless result SumCheckError.Memory }
    {
        let tables = bound_tables(alloc, &self.tables, challenge)?;
        let addends = embedded_addends(alloc, &self.addends)?;
        Ok(Prover {
            tables,
            addends,
            num_vars: self.num_vars - 1,
        })
    }
}

// Values, as elements of a greater field.
fn embedded_values<F: Field, E: ExtensionOf<F>>(
    alloc: Global,
    values: &[F],
) -> Result<Vec<E>, AllocError>
    ensures { IfOk result (λ embedded. embedded.items ≡ map E.within values.now) }
{
    let mut embedded = Vec::with_capacity(alloc, values.len())?;
    for i in 0..values.len() {
        embedded.push(E::embed(values[i]))?;
    }
    Ok(embedded)
}

// What is left of each table when its first variable is bound to `x`, an element of a greater field.
fn bound_tables<F: Field, E: ExtensionOf<F>>(
    alloc: Global,
    tables: &[Vec<F>],
    x: E,
) -> Result<Vec<Vec<E>>, AllocError>
    requires { All (λ t. length t.items ≡ 2 * (length t.items / 2)) tables.now }
    ensures values { IfOk result (λ left. sum_with E.field (as_tables E.field left.items) []
        ≡ bound_to E.field x (embedded_sum E.within (sum_with F.field (as_tables F.field tables.now) []))) }
    ensures count { IfOk result (λ left. length left.items ≡ length tables.now) }
    ensures len { (half : ℕ) → All (λ t. length t.items ≡ 2 * half) tables.now
        → IfOk result (λ left. All (λ t. length t.items ≡ half) left.items) }
{
    let mut left = Vec::with_capacity(alloc, tables.len())?;
    for i in 0..tables.len() {
        let bound = bind_first(alloc, &tables[i], x)?;
        left.push(bound)?;
    }
    Ok(left)
}

// Addends, or none, with their coefficients as elements of a greater field.
fn embedded_addends<F: Field, E: ExtensionOf<F>>(
    alloc: Global,
    addends: &Option<Vec<Addend<F>>>,
) -> Result<Option<Vec<Addend<E>>>, AllocError>
    ensures sum { IfOk result (λ embedded. as_sum embedded
        ≡ option_map (embedded_products E.within) (as_sum addends.now)) }
    ensures within { (n : ℕ) → FitTables n addends.now → IfOk result (λ embedded. FitTables n embedded) }
{
    match addends {
        Some(addends) => Ok(Some(embedded_list(alloc, addends)?)),
        None => Ok(None),
    }
}

fn embedded_list<F: Field, E: ExtensionOf<F>>(
    alloc: Global,
    addends: &[Addend<F>],
) -> Result<Vec<Addend<E>>, AllocError>
    ensures products { IfOk result (λ embedded. as_products embedded.items
        ≡ embedded_products E.within (as_products addends.now)) }
    ensures within { (n : ℕ) → AreWithin n addends.now → IfOk result (λ embedded. AreWithin n embedded.items) }
{
    let mut embedded = Vec::with_capacity(alloc, addends.len())?;
    for i in 0..addends.len() {
        let addend = embedded_addend(alloc, &addends[i])?;
        embedded.push(addend)?;
    }
    Ok(embedded)
}

fn embedded_addend<F: Field, E: ExtensionOf<F>>(
    alloc: Global,
    addend: &Addend<F>,
) -> Result<Addend<E>, AllocError>
    ensures coefficient { IfOk result (λ embedded. embedded.coefficient ≡ E.within addend.now.coefficient) }
    ensures factors { IfOk result (λ embedded. embedded.factors.items ≡ addend.now.factors.items) }
{
    let factors = Vec::from_slice(alloc, &addend.factors)?;
    Ok(Addend {
        coefficient: E::embed(addend.coefficient),
        factors,
    })
}
