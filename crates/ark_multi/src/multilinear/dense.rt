//! Multilinear extensions by all their values.

ghost use Rattle.std.specs.Prelude.{◌≡◌, ◌≢◌, ◌↔◌, ◌⊎◌, ◌<◌, ◌≤◌, ◌-◌, ◌^◌, ◌==◌, ℕ, List};
ghost use Rattle.std.specs.Prelude.{flat_map, if◌then◌else◌, length, max, min, set};
ghost use Rattle.std.specs.Prelude.{IfErr, IfOk, IfSome, IsOk, IsOkUnless, IsSome, IsTrue, OnErr, OnOk};
ghost use Rattle.std.specs.Slice.Iter.{iter_rest};
ghost use Rattle.std.specs.Iterator.Adapters.{IterYieldsInOrder};
ghost use Rattle.ark_math_variables.specs.Multilinear.{AreAddable, AreWindows, IsConcat, extension, exchanged, fixed};
ghost use Rattle.ark_math_variables.specs.Multilinear.{table_operations, table_sum, table_scaled, zero_table};
ghost use Rattle.ark_math.specs.Univariate.{of_list};

mod bytes;

use crate::multilinear::MultilinearExtension;
use ark_coeffs::dense::{add_each, add_scaled, negate_each, scale_each, subtract_each};
use ark_coeffs::draws::push_drawn;
use ark_tables::tables::{Exchange, fixed_table, relabel_table, value_of_table};
use ark_traits::{Field, PolyError, Polynomial, log2};
use rand::Rng;
use std::alloc::{AllocError, Global};
use std::fmt::{self, Debug, Formatter, Write};
use std::ops::Index;
use std::slice::Iter;

/// A multilinear extension by all the values of its table, in the order of their indices.
#[derive(Drop)]
#[derive_where(PartialEq, Eq, Hash; F)]
pub struct DenseMultilinearExtension<F> {
    evaluations: Vec<F>,
    num_vars: usize,
    ghost whole: { length evaluations.items ≡ 2 ^ num_vars },
    ghost few: { num_vars < 64 },
}

impl<F: Field> Clone for DenseMultilinearExtension<F> {
    ghost use Rattle.ark_multi.specs.Extensions.{dense_table};

    ghost is_clone = { λ p q. dense_table F.field q ≡ dense_table F.field p };

    fn clone(&self) -> Result<Self, AllocError> {
        Ok(DenseMultilinearExtension {
            evaluations: self.evaluations.clone()?,
            num_vars: self.num_vars,
        })
    }
}

impl<F: Field> Debug for DenseMultilinearExtension<F> {
    fn fmt<W: Write>(&self, f: &mut Formatter<W>) -> fmt::Result {
        let (num_vars, len) = (self.num_vars, self.evaluations.len());
        write!(f, "DenseML(nv = {num_vars}, evaluations = [")?;
        for value in self.iter().take(4) {
            write!(f, "{value:?} ")?;
        }
        f.write_str(if len < 4 { "])" } else { "...])" })
    }
}

impl<F: Field> Polynomial<F> for DenseMultilinearExtension<F> {
    ghost use Rattle.ark_multi.specs.Extensions.{dense_table};
    ghost use Rattle.ark_math_variables.specs.Multilinear.{Table};
    ghost use Rattle.ark_math_variables.proofs.Polynomials.Tables.{multilinear_polynomials};
    ghost use Rattle.ark_multi.specs.LayoutLaws.{values_tell};
    ghost use Rattle.ark_tables.proofs.DenseTables.{equal_tables, listed, same_length};
    ghost use Rattle.std.proofs.Common.{ap};

    type Point = Vec<F>;

    ghost Meaning = { Table F };

    ghost meaning = { dense_table F.field };

    ghost has_degree = { λ a d. d ≡ a.variables };

    ghost variables = { λ p. (dense_table F.field p).variables };

    ghost fits = { λ n x. length x.items ≡ n };

    ghost has_value = { λ a x y. y ≡ extension F.field a.value x.items };

    ghost always_evaluates = { ⊥ };

    ghost addable = { AreAddable F.field };

    ghost operations = { table_operations F.field };

    fn degree(&self) -> usize {
        self.num_vars
    }

    fn point_fits(&self, point: &Vec<F>) -> bool {
        point.len() == self.num_vars
    }

    fn evaluate(&self, alloc: Global, point: &Vec<F>) -> Result<F, PolyError> {
        Ok(value_of_table(alloc, &self.evaluations, point)?)
    }

    fn zero(alloc: Global) -> Result<Self, PolyError> {
        let mut evaluations = Vec::with_capacity(alloc, 1)?;
        evaluations.push(F::zero())?;
        Ok(DenseMultilinearExtension {
            evaluations,
            num_vars: 0,
        })
    }

    fn is_zero(&self) -> bool {
        if self.num_vars > 0 {
            return false;
        }
        self.evaluations[0].is_zero()
    }

    fn addable(&self, other: &Self) -> bool {
        self.num_vars == other.num_vars || self.is_zero() || other.is_zero()
    }

    fn add(&self, alloc: Global, other: &Self) -> Result<Self, PolyError> {
        let mut sum = self.clone()?;
        sum.add_assign(alloc, other)?;
        Ok(sum)
    }

    fn sub(&self, alloc: Global, other: &Self) -> Result<Self, PolyError> {
        let mut difference = self.clone()?;
        difference.sub_assign(alloc, other)?;
        Ok(difference)
    }

    fn neg(&self, alloc: Global) -> Result<Self, PolyError> {
        let mut opposite = self.clone()?;
        negate_each(opposite.evaluations.as_mut_slice());
        Ok(opposite)
    }

    fn add_assign(&mut self, alloc: Global, other: &Self) -> Result<(), PolyError> {
        if self.num_vars == other.num_vars {
            add_each(self.evaluations.as_mut_slice(), &other.evaluations);
            return Ok(());
        }
        self.add_to_zero(alloc, F::one(), other)
    }

    fn sub_assign(&mut self, alloc: Global, other: &Self) -> Result<(), PolyError> {
        if self.num_vars == other.num_vars {
            subtract_each(self.evaluations.as_mut_slice(), &other.evaluations);
            return Ok(());
        }
        self.add_to_zero(alloc, -F::one(), other)
    }

    fn add_assign_scaled(
        &mut self,
        alloc: Global,
        factor: F,
        other: &Self,
    ) -> Result<(), PolyError> {
        if self.num_vars == other.num_vars {
            add_scaled(self.evaluations.as_mut_slice(), factor, &other.evaluations);
            return Ok(());
        }
        self.add_to_zero(alloc, factor, other)
    }

    ghost equality_law = { λ a b. equal_tables F.field F.eq F.equality_law a.evaluations.items
        b.evaluations.items a.num_vars b.num_vars a.whole b.whole };

    ghost clone_law = { λ a b same. same };

    ghost clone_variables = { λ a b same. ap (λ t. t.variables) same };

    ghost fits_max = { λ m n x left right. same_length m n x.items left right };

    ghost polynomial_laws = { multilinear_polynomials F.field F.field_laws (λ x. x.items) };

    ghost told = { λ mode p q has other same. ap (λ v. record { variables = v.1; value = of_list F.field v.0 })
        (values_tell (F.format mode) (F.format_law mode) (F.elements_law mode).one_to_one
        (p.evaluations.items, p.num_vars) (q.evaluations.items, q.num_vars) has.0 other.0 same) };

    ghost variables_told = { λ mode p q has other same. ap (λ v. v.1)
        (values_tell (F.format mode) (F.format_law mode) (F.elements_law mode).one_to_one
        (p.evaluations.items, p.num_vars) (q.evaluations.items, q.num_vars) has.0 other.0 same) };
}

impl<F: Field> MultilinearExtension<F> for DenseMultilinearExtension<F> {
    ghost use Rattle.ark_multi.specs.Extensions.{dense_table};
    ghost use Rattle.ark_math_variables.specs.Multilinear.{Table};
    ghost use Rattle.std.proofs.Common.{refl};
    ghost use Rattle.ark_math.proofs.Algebra.Groups.{identity_embeds};
    ghost use Rattle.ark_tables.proofs.DenseTables.{list_below};

    ghost table = { dense_table F.field };

    fn num_vars(&self) -> usize {
        self.num_vars
    }

    fn rand<R: Rng>(
        alloc: Global,
        num_vars: usize,
        rng: &mut R,
        _tries: usize,
    ) -> Result<Option<Self>, PolyError>
        requires { num_vars < 64 }
        ensures drawn { IfOk result IsSome }
        ensures variables { IfOk result (λ drawn. IfSome drawn (λ p.
            (dense_table F.field p).variables ≡ num_vars)) }
        ensures memory { IsOkUnless result PolyError.Memory }
    {
        let mut evaluations = Vec::with_capacity(alloc, 1 << num_vars)?;
        push_drawn(&mut evaluations, 1 << num_vars, rng)?;
        Ok(Some(DenseMultilinearExtension {
            evaluations,
            num_vars,
        }))
    }

    fn relabel(&self, alloc: Global, a: usize, b: usize, k: usize) -> Result<Self, PolyError> {
        let mut relabelled = self.clone()?;
        relabelled.relabel_in_place(a, b, k);
        Ok(relabelled)
    }

    fn fix_variables(&self, alloc: Global, point: &[F]) -> Result<Self, PolyError> {
        Ok(DenseMultilinearExtension {
            evaluations: fixed_table(alloc, &self.evaluations, point)?,
            num_vars: self.num_vars - point.len(),
        })
    }

    fn to_evaluations(&self, alloc: Global) -> Result<Vec<F>, PolyError> {
        Ok(Vec::from_slice(alloc, &self.evaluations)?)
    }

    ghost table_of = { λ a. a };

    ghost table_law = { λ p. refl };

    ghost variables_law = { λ p. refl };

    ghost few = { λ p. p.few };

    ghost below = { λ p. list_below F.field p.evaluations.items p.num_vars p.whole };

    ghost tables_embed = { identity_embeds (table_operations F.field) };

    ghost degree_table = { λ a d. (λ h. h, λ h. h) };

    ghost value_table = { λ a x y. (λ h. h, λ h. h) };

    ghost fits_law = { λ n x. (λ h. h, λ h. h) };

    ghost addable_law = { λ a b. (λ h. h, λ h. h) };
}

// How many values these have together, or `usize::MAX` where there are more.
fn total_len<F: Field>(polys: &[DenseMultilinearExtension<F>]) -> usize
    ensures { result ≡ min usize.MAX (length (flat_map (λ p. p.evaluations.items) polys.now)) }
{
    let mut total: usize = 0;
    for poly in polys {
        total = total.saturating_add(poly.evaluations.len());
    }
    total
}

// The values of these, one list after the other, then zeros up to this length. Memory is taken once.
fn joined_values<F: Field>(
    alloc: Global,
    polys: &[DenseMultilinearExtension<F>],
    len: usize,
) -> Result<Vec<F>, AllocError>
    requires { length (flat_map (λ p. p.evaluations.items) polys.now) ≤ len }
    ensures values { IfOk result (λ v. of_list F.field v.items
        ≡ of_list F.field (flat_map (λ p. p.evaluations.items) polys.now)) }
    ensures len { IfOk result (λ v. length v.items ≡ len) }
{
    let mut values = Vec::with_capacity(alloc, len)?;
    for poly in polys {
        values.extend_from_slice(&poly.evaluations)?;
    }
    values.resize(len, F::zero())?;
    Ok(values)
}

impl<F: Field> DenseMultilinearExtension<F> {
    ghost use Rattle.ark_multi.specs.Extensions.{dense_table, dense_values, values_of};

    /// The extension of a copy of these values, `2^num_vars` of them, in the order of their indices.
    pub fn from_evaluations_slice(
        alloc: Global,
        num_vars: usize,
        evaluations: &[F],
    ) -> Result<Self, PolyError>
        requires few { num_vars < 64 }
        requires whole { length evaluations.now ≡ 2 ^ num_vars }
        ensures variables { IfOk result (λ p. (dense_table F.field p).variables ≡ num_vars) }
        ensures values { IfOk result (λ p. (dense_table F.field p).value
            ≡ of_list F.field evaluations.now) }
        ensures memory { IsOkUnless result PolyError.Memory }
    {
        let evaluations = Vec::from_slice(alloc, evaluations)?;
        Ok(DenseMultilinearExtension::from_evaluations_vec(num_vars, evaluations))
    }

    /// The extension of these values, `2^num_vars` of them, in the order of their indices. Takes no memory.
    pub fn from_evaluations_vec(num_vars: usize, evaluations: Vec<F>) -> Self
        requires few { num_vars < 64 }
        requires whole { length evaluations.items ≡ 2 ^ num_vars }
        ensures variables { (dense_table F.field result).variables ≡ num_vars }
        ensures values { (dense_table F.field result).value ≡ of_list F.field evaluations.items }
    {
        DenseMultilinearExtension {
            evaluations,
            num_vars,
        }
    }

    /// The extension of all these tables, one after the other, then zeros up to a power of two: of the value
    /// zero, of no variables, where there are none. `Overflow` exactly where that power is past `2^63`,
    /// judged before memory.
    pub fn concat(alloc: Global, polys: &[Self]) -> Result<Self, PolyError>
        ensures values { IfOk result (λ p. IsConcat F.field (dense_values F.field polys.now)
            (dense_table F.field p)) }
        ensures overflow { (result ≡ Err PolyError.Overflow)
            ↔ (2 ^ 63 < length (flat_map (λ v. v) (dense_values F.field polys.now))) }
        ensures errors { IfErr result (λ e. (e ≡ PolyError.Memory) ⊎ (e ≡ PolyError.Overflow)) }
    {
        let num_vars = log2(total_len(polys)) as usize;
        if num_vars >= 64 {
            return Err(PolyError::Overflow);
        }
        let evaluations = joined_values(alloc, polys, 1 << num_vars)?;
        Ok(DenseMultilinearExtension::from_evaluations_vec(num_vars, evaluations))
    }

    /// The values, in the order of their indices.
    pub fn iter(&self) -> Iter<'_, F>
        ensures values { iter_rest result ≡ values_of (dense_table F.field self.now) }
        ensures runs { IterYieldsInOrder F }
    {
        self.evaluations.iter()
    }

    /// Exchanges the `k` variables from `a` on with the `k` from `b` on, by exchanging values. Takes no
    /// memory.
    pub fn relabel_in_place(&mut self, a: usize, b: usize, k: usize)
        requires { AreWindows (dense_table F.field self.old).variables a b k }
        ensures values { (x : List F) → length x ≡ (dense_table F.field self.old).variables
            → extension F.field (dense_table F.field self.new).value x
            ≡ extension F.field (dense_table F.field self.old).value (exchanged F.field x a b k) }
        ensures variables { (dense_table F.field self.new).variables
            ≡ (dense_table F.field self.old).variables }
    {
        relabel_table(
            self.evaluations.as_mut_slice(),
            Exchange {
                first: a,
                second: b,
                count: k,
            },
        );
    }

    /// Replaces the value at this index, one of the first `2^num_vars`.
    pub fn set(&mut self, index: usize, value: F)
        requires { index < 2 ^ (dense_table F.field self.old).variables }
        ensures variables { (dense_table F.field self.new).variables
            ≡ (dense_table F.field self.old).variables }
        ensures values { (i : ℕ) → (dense_table F.field self.new).value i
            ≡ (if index == i then value else (dense_table F.field self.old).value i) }
    {
        self.evaluations[index] = value;
    }

    /// The multiple by the factor: zero of no variables where the factor is zero.
    pub fn mul_scalar(&self, alloc: Global, factor: F) -> Result<Self, PolyError>
        ensures multiple { factor ≢ F.field.zero → IfOk result (λ p. dense_table F.field p
            ≡ table_scaled F.field factor (dense_table F.field self.now)) }
        ensures zero { factor ≡ F.field.zero → IfOk result (λ p. dense_table F.field p ≡ zero_table F.field) }
        ensures memory { IsOkUnless result PolyError.Memory }
    {
        if factor.is_zero() {
            return DenseMultilinearExtension::zero(alloc);
        }
        self.multiple(alloc, factor)
    }

    /// The multiple by the factor, in place: zero of no variables where the factor is zero. Only then it
    /// takes memory, for one value. After an error it has the value that it had.
    pub fn mul_assign(&mut self, alloc: Global, factor: F) -> Result<(), PolyError>
        ensures multiple { factor ≢ F.field.zero → OnOk result (dense_table F.field self.new
            ≡ table_scaled F.field factor (dense_table F.field self.old)) }
        ensures zero { factor ≡ F.field.zero
            → OnOk result (dense_table F.field self.new ≡ zero_table F.field) }
        ensures succeeds { factor ≢ F.field.zero → IsOk result }
        ensures kept { OnErr result (self.new ≡ self.old) }
        ensures memory { IsOkUnless result PolyError.Memory }
    {
        if factor.is_zero() {
            *self = DenseMultilinearExtension::zero(alloc)?;
        } else {
            self.scale(factor);
        }
        Ok(())
    }

    // Multiplies all values by the factor, which keeps the variables.
    fn scale(&mut self, factor: F)
        ensures { dense_table F.field self.new
            ≡ table_scaled F.field factor (dense_table F.field self.old) }
    {
        scale_each(self.evaluations.as_mut_slice(), factor);
    }

    // Adds a multiple of another, where one of the two is zero of no variables.
    fn add_to_zero(&mut self, alloc: Global, factor: F, other: &Self) -> Result<(), PolyError>
        requires addable { AreAddable F.field (dense_table F.field self.old) (dense_table F.field other.now) }
        requires apart { (dense_table F.field self.old).variables
            ≢ (dense_table F.field other.now).variables }
        ensures sum { OnOk result (dense_table F.field self.new
            ≡ table_sum F.field (dense_table F.field self.old)
            (table_scaled F.field factor (dense_table F.field other.now))) }
        ensures kept { OnErr result (self.new ≡ self.old) }
        ensures memory { IsOkUnless result PolyError.Memory }
    {
        if self.is_zero() {
            *self = other.multiple(alloc, factor)?;
        }
        Ok(())
    }

    // All values times the factor, which keeps the variables.
    fn multiple(&self, alloc: Global, factor: F) -> Result<Self, PolyError>
        ensures multiple { IfOk result (λ p. dense_table F.field p
            ≡ table_scaled F.field factor (dense_table F.field self.now)) }
        ensures memory { IsOkUnless result PolyError.Memory }
    {
        let mut multiple = self.clone()?;
        multiple.scale(factor);
        Ok(multiple)
    }
}

impl<F: Field> Index<usize> for DenseMultilinearExtension<F> {
    ghost use Rattle.ark_multi.specs.Extensions.{dense_table};

    type Output = F;

    ghost can_index = { λ p i. i < 2 ^ (dense_table F.field p).variables };

    ghost index_gives = { λ p i x. x ≡ (dense_table F.field p).value i };

    /// The value at this index, one of the first `2^num_vars`.
    fn index(&self, index: usize) -> &F {
        &self.evaluations[index]
    }
}
