//! Multilinear extensions by the values that aren't zero.

ghost use Rattle.std.specs.Prelude.{◌≡◌, ◌≢◌, ◌<◌, ◌≤◌, ◌-◌, ◌/◌, ◌^◌, ◌==◌, ℕ, List, length, max};
ghost use Rattle.std.specs.Prelude.{All, IfOk, IfSome, IsNone, IsOkUnless, IsSome};
ghost use Rattle.std.specs.Slice.Iter.{iter_rest};
ghost use Rattle.std.specs.Iterator.Adapters.{IterYieldsInOrder};
ghost use Rattle.ark_math_variables.specs.Multilinear.{AreAddable, extension, written};
ghost use Rattle.ark_math_variables.specs.Multilinear.{table_operations, table_sum, table_scaled};
ghost use Rattle.ark_math.specs.Univariate.{HasAtMost, IsSparse, of_list, of_pairs};
ghost use Rattle.ark_coeffs.specs.Multiples.{factor_of};

mod bytes;

use crate::multilinear::{DenseMultilinearExtension, MultilinearExtension};
use ark_coeffs::multiple::Multiple;
use ark_coeffs::sparse::sum_with_multiple;
use ark_tables::draws::drawn_entries;
use ark_tables::tables::Exchange;
use ark_tables::windows::{
    bind_variables, relabel_entries, value_at, values_of_entries, written_entries,
};
use ark_traits::{Field, PolyError, Polynomial};
use rand::Rng;
use std::alloc::{AllocError, Global};
use std::fmt::{self, Debug, Formatter, Write};
use std::ops::Index;
use std::slice::Iter;

/// A multilinear extension by the entries of its table that aren't zero: pairs of index and value, the
/// indices rising.
#[derive(Drop)]
#[derive_where(PartialEq, Eq, Hash; F)]
pub struct SparseMultilinearExtension<F: Field> {
    evaluations: Vec<(usize, F)>,
    num_vars: usize,
    // What an index without an entry shows.
    #[derive_where(skip(EqHashOrd))]
    zero: F,
    ghost sparse: { IsSparse F.field evaluations.items },
    ghost within: { All (λ e. e.0 < 2 ^ num_vars) evaluations.items },
    ghost few: { num_vars < 64 },
    ghost nothing: { zero ≡ F.field.zero },
}

impl<F: Field> Clone for SparseMultilinearExtension<F> {
    ghost use Rattle.ark_multi.specs.Extensions.{sparse_table};

    ghost is_clone = { λ p q. sparse_table F.field q ≡ sparse_table F.field p };

    fn clone(&self) -> Result<Self, AllocError> {
        Ok(SparseMultilinearExtension {
            evaluations: self.evaluations.clone()?,
            num_vars: self.num_vars,
            zero: self.zero,
        })
    }
}

impl<F: Field> Debug for SparseMultilinearExtension<F> {
    fn fmt<W: Write>(&self, f: &mut Formatter<W>) -> fmt::Result {
        let (num_vars, len) = (self.num_vars, self.evaluations.len());
        write!(
            f,
            "SparseMultilinearPolynomial(num_vars = {num_vars}, evaluations = ["
        )?;
        for entry in self.iter().take(8) {
            write!(f, "{entry:?} ")?;
        }
        f.write_str(if len <= 8 { "])" } else { "...])" })
    }
}

impl<F: Field> Polynomial<F> for SparseMultilinearExtension<F> {
    ghost use Rattle.ark_multi.specs.Extensions.{sparse_table};
    ghost use Rattle.ark_math_variables.specs.Multilinear.{Table};
    ghost use Rattle.ark_math_variables.proofs.Polynomials.Tables.{multilinear_polynomials};
    ghost use Rattle.ark_multi.specs.LayoutLaws.{entries_tell};
    ghost use Rattle.ark_tables.proofs.DenseTables.{same_length};
    ghost use Rattle.ark_tables.proofs.SparseTables.{equal_entries};
    ghost use Rattle.std.proofs.Common.{ap};

    type Point = Vec<F>;

    ghost Meaning = { Table F };

    ghost meaning = { sparse_table F.field };

    ghost has_degree = { λ a d. d ≡ a.variables };

    ghost variables = { λ p. (sparse_table F.field p).variables };

    ghost fits = { λ n x. length x.items ≡ n };

    ghost has_value = { λ a x y. y ≡ extension F.field a.value x.items };

    ghost always_evaluates = { ⊥ };

    ghost addable = { AreAddable F.field };

    ghost operations = { table_operations F.field };

    fn degree(&self) -> usize {
        self.num_vars
    }

    fn point_fits(&self, point: &Vec<F>) -> bool {
        point.len() == self.num_vars
    }

    fn evaluate(&self, alloc: Global, point: &Vec<F>) -> Result<F, PolyError> {
        let left = bind_variables(alloc, &self.evaluations, point)?;
        Ok(*value_at(&left, 0, &self.zero))
    }

    fn zero(alloc: Global) -> Result<Self, PolyError> {
        Ok(SparseMultilinearExtension {
            evaluations: Vec::new(alloc),
            num_vars: 0,
            zero: F::zero(),
        })
    }

    fn is_zero(&self) -> bool {
        if self.num_vars > 0 {
            return false;
        }
        self.evaluations.is_empty()
    }

    fn addable(&self, other: &Self) -> bool {
        self.num_vars == other.num_vars || self.is_zero() || other.is_zero()
    }

    fn add(&self, alloc: Global, other: &Self) -> Result<Self, PolyError> {
        self.plus_multiple(alloc, Multiple::Same, other)
    }

    fn sub(&self, alloc: Global, other: &Self) -> Result<Self, PolyError> {
        self.plus_multiple(alloc, Multiple::Opposite, other)
    }

    fn neg(&self, alloc: Global) -> Result<Self, PolyError> {
        SparseMultilinearExtension::zero(alloc)?.sub(alloc, self)
    }

    // The three in place make the sum, and then put it in place of the old value.
    fn add_assign(&mut self, alloc: Global, other: &Self) -> Result<(), PolyError> {
        *self = self.add(alloc, other)?;
        Ok(())
    }

    fn sub_assign(&mut self, alloc: Global, other: &Self) -> Result<(), PolyError> {
        *self = self.sub(alloc, other)?;
        Ok(())
    }

    fn add_assign_scaled(
        &mut self,
        alloc: Global,
        factor: F,
        other: &Self,
    ) -> Result<(), PolyError> {
        *self = self.plus_multiple(alloc, Multiple::Times(factor), other)?;
        Ok(())
    }

    ghost equality_law = { λ a b. equal_entries F.field F.field_laws F.eq F.equality_law
        a.evaluations.items b.evaluations.items a.num_vars b.num_vars a.sparse b.sparse };

    ghost clone_law = { λ a b same. same };

    ghost clone_variables = { λ a b same. ap (λ t. t.variables) same };

    ghost fits_max = { λ m n x left right. same_length m n x.items left right };

    ghost polynomial_laws = { multilinear_polynomials F.field F.field_laws (λ x. x.items) };

    ghost told = { λ mode p q has other same. ap (λ v. record { variables = v.1.0; value = of_pairs F.field v.0 })
        (entries_tell (F.format mode) (F.format_law mode) (F.elements_law mode).one_to_one
        (p.evaluations.items, (p.num_vars, p.zero)) (q.evaluations.items, (q.num_vars, q.zero)) has.0 other.0 same) };

    ghost variables_told = { λ mode p q has other same. ap (λ v. v.1.0)
        (entries_tell (F.format mode) (F.format_law mode) (F.elements_law mode).one_to_one
        (p.evaluations.items, (p.num_vars, p.zero)) (q.evaluations.items, (q.num_vars, q.zero)) has.0 other.0 same) };
}

impl<F: Field> MultilinearExtension<F> for SparseMultilinearExtension<F> {
    ghost use Rattle.ark_multi.specs.Extensions.{sparse_table};
    ghost use Rattle.std.proofs.Common.{refl};
    ghost use Rattle.ark_math.proofs.Algebra.Groups.{identity_embeds};
    ghost use Rattle.ark_math_variables.proofs.Polynomials.Tables.{pairs_below};

    ghost table = { sparse_table F.field };

    fn num_vars(&self) -> usize {
        self.num_vars
    }

    /// At most `2^(num_vars / 2)` values of a drawn extension aren't zero.
    fn rand<R: Rng>(
        alloc: Global,
        num_vars: usize,
        rng: &mut R,
        tries: usize,
    ) -> Result<Option<Self>, PolyError>
        requires { num_vars < 64 }
        ensures variables { IfOk result (λ drawn. IfSome drawn (λ p.
            (sparse_table F.field p).variables ≡ num_vars)) }
        ensures entries { IfOk result (λ drawn. IfSome drawn (λ p.
            HasAtMost F.field (2 ^ (num_vars / 2)) (sparse_table F.field p).value)) }
        ensures spent { tries ≡ 0 → IfOk result IsNone }
        ensures memory { IsOkUnless result PolyError.Memory }
    {
        SparseMultilinearExtension::rand_with_config(
            alloc,
            num_vars,
            1 << (num_vars / 2),
            rng,
            tries,
        )
    }

    fn relabel(&self, alloc: Global, a: usize, b: usize, k: usize) -> Result<Self, PolyError> {
        Ok(SparseMultilinearExtension {
            evaluations: relabel_entries(
                alloc,
                self.num_vars,
                &self.evaluations,
                Exchange {
                    first: a,
                    second: b,
                    count: k,
                },
            )?,
            num_vars: self.num_vars,
            zero: self.zero,
        })
    }

    fn fix_variables(&self, alloc: Global, point: &[F]) -> Result<Self, PolyError> {
        Ok(SparseMultilinearExtension {
            evaluations: bind_variables(alloc, &self.evaluations, point)?,
            num_vars: self.num_vars - point.len(),
            zero: self.zero,
        })
    }

    fn to_evaluations(&self, alloc: Global) -> Result<Vec<F>, PolyError> {
        values_of_entries(alloc, 1 << self.num_vars, &self.evaluations)
    }

    ghost table_of = { λ a. a };

    ghost table_law = { λ p. refl };

    ghost variables_law = { λ p. refl };

    ghost few = { λ p. p.few };

    ghost below = { λ p. pairs_below F.field F.field_laws (2 ^ p.num_vars) p.evaluations.items p.within };

    ghost tables_embed = { identity_embeds (table_operations F.field) };

    ghost degree_table = { λ a d. (λ h. h, λ h. h) };

    ghost value_table = { λ a x y. (λ h. h, λ h. h) };

    ghost fits_law = { λ n x. (λ h. h, λ h. h) };

    ghost addable_law = { λ a b. (λ h. h, λ h. h) };
}

impl<F: Field> SparseMultilinearExtension<F> {
    ghost use Rattle.ark_multi.specs.Extensions.{dense_table, sparse_table};

    /// The extension of the table that holds these pairs of index and value, and zero elsewhere. The indices
    /// are below `2^num_vars`, in any order; the last pair of an index wins.
    pub fn from_evaluations(
        alloc: Global,
        num_vars: usize,
        evaluations: &[(usize, F)],
    ) -> Result<Self, PolyError>
        requires few { num_vars < 64 }
        requires within { All (λ e. e.0 < 2 ^ num_vars) evaluations.now }
        ensures variables { IfOk result (λ p. (sparse_table F.field p).variables ≡ num_vars) }
        ensures values { IfOk result (λ p. (sparse_table F.field p).value
            ≡ written F.field.zero evaluations.now) }
        ensures memory { IsOkUnless result PolyError.Memory }
    {
        let entries = written_entries(alloc, evaluations)?;
        Ok(SparseMultilinearExtension {
            evaluations: entries,
            num_vars,
            zero: F::zero(),
        })
    }

    /// One of `num_vars` variables, below 64, with drawn values at drawn indices, and zero elsewhere.
    /// `entries`, at most `2^num_vars`, says how many indices are drawn; a value that is drawn as zero is not
    /// stored. For each index at most `tries` are drawn until one is new; `None` where these are spent.
    pub fn rand_with_config<R: Rng>(
        alloc: Global,
        num_vars: usize,
        entries: usize,
        rng: &mut R,
        tries: usize,
    ) -> Result<Option<Self>, PolyError>
        requires few { num_vars < 64 }
        requires room { entries ≤ 2 ^ num_vars }
        ensures variables { IfOk result (λ drawn. IfSome drawn (λ p.
            (sparse_table F.field p).variables ≡ num_vars)) }
        ensures entries { IfOk result (λ drawn. IfSome drawn (λ p.
            HasAtMost F.field entries (sparse_table F.field p).value)) }
        ensures spent { tries ≡ 0 → 0 < entries → IfOk result IsNone }
        ensures unasked { entries ≡ 0 → IfOk result IsSome }
        ensures memory { IsOkUnless result PolyError.Memory }
    {
        let Some(evaluations) = drawn_entries(alloc, num_vars, entries, rng, tries)? else {
            return Ok(None);
        };
        Ok(Some(SparseMultilinearExtension {
            evaluations,
            num_vars,
            zero: F::zero(),
        }))
    }

    /// The dense extension of the same table.
    pub fn to_dense_multilinear_extension(
        &self,
        alloc: Global,
    ) -> Result<DenseMultilinearExtension<F>, PolyError>
        ensures same { IfOk result (λ p. dense_table F.field p ≡ sparse_table F.field self.now) }
        ensures memory { IsOkUnless result PolyError.Memory }
    {
        let evaluations = self.to_evaluations(alloc)?;
        Ok(DenseMultilinearExtension::from_evaluations_vec(self.num_vars, evaluations))
    }

    /// The values that aren't zero, each with its index before it, by rising indices.
    pub fn iter(&self) -> Iter<'_, (usize, F)>
        ensures sparse { IsSparse F.field (iter_rest result) }
        ensures values { of_pairs F.field (iter_rest result) ≡ (sparse_table F.field self.now).value }
        ensures runs { IterYieldsInOrder (ℕ × F) }
    {
        self.evaluations.iter()
    }

    // The sum with a multiple of another, the zeros dropped.
    fn plus_multiple(
        &self,
        alloc: Global,
        multiple: Multiple<F>,
        other: &Self,
    ) -> Result<Self, PolyError>
        ensures sum { IfOk result (λ p. sparse_table F.field p
            ≡ table_sum F.field (sparse_table F.field self.now)
            (table_scaled F.field (factor_of F.field multiple) (sparse_table F.field other.now))) }
        ensures memory { IsOkUnless result PolyError.Memory }
    {
        Ok(SparseMultilinearExtension {
            evaluations: sum_with_multiple(alloc, &self.evaluations, multiple, &other.evaluations)?,
            num_vars: self.num_vars.max(other.num_vars),
            zero: self.zero,
        })
    }
}

impl<F: Field> Index<usize> for SparseMultilinearExtension<F> {
    ghost use Rattle.ark_multi.specs.Extensions.{sparse_table};
    ghost use Rattle.std.proofs.Common.{refl};

    type Output = F;

    ghost can_index = { λ _ _. Unit {0} };

    ghost index_gives = { λ p i x. x ≡ (sparse_table F.field p).value i };

    /// The value at this index; zero at any index that has no entry.
    fn index(&self, index: usize) -> &F {
        value_at(&self.evaluations, index, &self.zero)
    }
}
