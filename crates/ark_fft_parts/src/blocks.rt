//! Blocks of columns and of rows, transformed or taken back. A block is a list of its own, and is left as
//! it is.

ghost use Rattle.std.specs.Prelude.{◌≡◌, ℕ, ◌+◌, ◌*◌, ◌/◌, ◌%◌, ◌<◌, ◌≤◌, map, length};
ghost use Rattle.std.specs.Prelude.{IfOk, OnOk, IsOkUnless};
ghost use Rattle.ark_math.specs.Domain.{radix2};
ghost use Rattle.ark_math.specs.Transform.{transform, IsInverse};
ghost use Rattle.ark_fft.specs.Coset.{coset_domain};
ghost use Rattle.ark_fft_parts.specs.Counting.{GrowsByTransforms};
ghost use Rattle.ark_fft_parts.specs.Parts.{column, row, of_columns, of_row};
ghost use Rattle.ark_fft_parts.specs.Ways.{IsMade};

use crate::matrix::{put_column, take_column, take_row};
use crate::parts::Parts;
use crate::ways::{Way, pass};
use ark_fft::domain::first_items;
use ark_traits::{DomainCoeff, FftField, PolyError, Work};
use std::alloc::Global;

// Parts, and which way they go.
#[derive(Drop)]
struct Passes<F: FftField> {
    parts: Parts<F>,
    way: Way,
}

// Each column of a block of `count` columns.
fn pass_columns<F: FftField, T: DomainCoeff<F>>(
    passes: &Passes<F>,
    alloc: Global,
    block: &[T],
    count: usize,
    work: &mut Work,
) -> Result<Vec<T>, PolyError>
    requires size { length block.now ≡ passes.now.parts.column.size * count }
    ensures size { IfOk result (λ v. length v.items ≡ length block.now) }
    ensures made { IfOk result (λ v. (j : ℕ) → j < count → IsMade F.field T.group passes.now.way
        (of_columns F.field (coset_domain radix2 passes.now.parts.whole) passes.now.parts.column.size
        passes.now.parts.row.size)
        (column T.group passes.now.parts.column.size count (map T.meaning block.now) j)
        (column T.group passes.now.parts.column.size count (map T.meaning v.items) j)) }
    ensures counted { OnOk result (GrowsByTransforms count passes.now.parts.column.size work.old work.new) }
    ensures memory { IsOkUnless result PolyError.Memory }
{
    let domain = passes.parts.column_domain();
    let rows = domain.size as usize;
    let mut made = first_items(alloc, block, block.len())?;
    for j in 0..count {
        let mut list = take_column(alloc, block, rows, count, j)?;
        pass(&domain, passes.way, alloc, &mut list, work)?;
        put_column(made.as_mut_slice(), list.as_slice(), count, j);
    }
    Ok(made)
}

// Each row of a block of rows, of which the first has this number.
fn pass_rows<F: FftField, T: DomainCoeff<F>>(
    passes: &Passes<F>,
    alloc: Global,
    block: &[T],
    first: usize,
    work: &mut Work,
) -> Result<Vec<T>, PolyError>
    requires whole { length block.now % passes.now.parts.row.size ≡ 0 }
    requires within { first + length block.now / passes.now.parts.row.size ≤ passes.now.parts.column.size }
    ensures size { IfOk result (λ v. length v.items ≡ length block.now) }
    ensures made { IfOk result (λ v. (a : ℕ) → a < length block.now / passes.now.parts.row.size
        → IsMade F.field T.group passes.now.way
        (of_row F.field (coset_domain radix2 passes.now.parts.whole) passes.now.parts.column.size
        passes.now.parts.row.size (first + a))
        (row T.group passes.now.parts.row.size (map T.meaning block.now) a)
        (row T.group passes.now.parts.row.size (map T.meaning v.items) a)) }
    ensures counted { OnOk result (GrowsByTransforms (length block.now / passes.now.parts.row.size)
        passes.now.parts.row.size work.old work.new) }
    ensures memory { IsOkUnless result PolyError.Memory }
{
    let columns = passes.parts.row.size as usize;
    let mut made = Vec::with_capacity(alloc, block.len())?;
    for a in 0..block.len() / columns {
        let mut list = take_row(alloc, block, columns, a)?;
        pass(
            &passes.parts.row_domain(first + a),
            passes.way,
            alloc,
            &mut list,
            work,
        )?;
        made.extend_from_slice(list.as_slice())?;
    }
    Ok(made)
}

impl<F: FftField> Parts<F> {
    /// The transforms of a block of any `count` columns, as `r` rows of `count` items: each column of the
    /// answer is the transform of the block's over the domain of the columns. `Memory` is the only error.
    ///
    /// It takes `r/2 * log2(r)` butterflies a column, at most a product an item, and memory for `r/2` field elements and a column
    /// beside the answer.
    pub fn columns<T: DomainCoeff<F>>(
        &self,
        alloc: Global,
        block: &[T],
        count: usize,
        work: &mut Work,
    ) -> Result<Vec<T>, PolyError>
        requires size { length block.now ≡ self.now.column.size * count }
        ensures size { IfOk result (λ v. length v.items ≡ length block.now) }
        ensures columns { IfOk result (λ v. (j : ℕ) → j < count
            → column T.group self.now.column.size count (map T.meaning v.items) j
            ≡ transform F.field T.group
            (of_columns F.field (coset_domain radix2 self.now.whole) self.now.column.size self.now.row.size)
            (column T.group self.now.column.size count (map T.meaning block.now) j)) }
        ensures counted { OnOk result (GrowsByTransforms count self.now.column.size work.old work.new) }
        ensures memory { IsOkUnless result PolyError.Memory }
    {
        let passes = Passes {
            parts: *self,
            way: Way::Forward,
        };
        pass_columns(&passes, alloc, block, count, work)
    }

    /// The transforms of a block of any rows, of which the first is row `first` of all, after those of the
    /// columns: each row of the answer is the transform of the block's over the domain of its row, whose
    /// offset makes the twiddles. `Memory` is the only error.
    ///
    /// It takes `c/2 * log2(c)` butterflies a row, at most a product an item, and memory for `c/2` field
    /// elements and a row beside the answer.
    pub fn rows<T: DomainCoeff<F>>(
        &self,
        alloc: Global,
        block: &[T],
        first: usize,
        work: &mut Work,
    ) -> Result<Vec<T>, PolyError>
        requires whole { length block.now % self.now.row.size ≡ 0 }
        requires within { first + length block.now / self.now.row.size ≤ self.now.column.size }
        ensures size { IfOk result (λ v. length v.items ≡ length block.now) }
        ensures rows { IfOk result (λ v. (a : ℕ) → a < length block.now / self.now.row.size
            → row T.group self.now.row.size (map T.meaning v.items) a
            ≡ transform F.field T.group
            (of_row F.field (coset_domain radix2 self.now.whole) self.now.column.size self.now.row.size
            (first + a))
            (row T.group self.now.row.size (map T.meaning block.now) a)) }
        ensures counted { OnOk result (GrowsByTransforms (length block.now / self.now.row.size)
            self.now.row.size work.old work.new) }
        ensures memory { IsOkUnless result PolyError.Memory }
    {
        let passes = Passes {
            parts: *self,
            way: Way::Forward,
        };
        pass_rows(&passes, alloc, block, first, work)
    }

    /// The inverses of a block of any rows, of which the first is row `first` of all: each row of the
    /// answer is that whose transform over the domain of its row is the block's. `Memory` is the only
    /// error.
    pub fn rows_back<T: DomainCoeff<F>>(
        &self,
        alloc: Global,
        block: &[T],
        first: usize,
        work: &mut Work,
    ) -> Result<Vec<T>, PolyError>
        requires whole { length block.now % self.now.row.size ≡ 0 }
        requires within { first + length block.now / self.now.row.size ≤ self.now.column.size }
        ensures size { IfOk result (λ v. length v.items ≡ length block.now) }
        ensures rows { IfOk result (λ v. (a : ℕ) → a < length block.now / self.now.row.size
            → IsInverse F.field T.group
            (of_row F.field (coset_domain radix2 self.now.whole) self.now.column.size self.now.row.size
            (first + a))
            (row T.group self.now.row.size (map T.meaning block.now) a)
            (row T.group self.now.row.size (map T.meaning v.items) a)) }
        ensures counted { OnOk result (GrowsByTransforms (length block.now / self.now.row.size)
            self.now.row.size work.old work.new) }
        ensures memory { IsOkUnless result PolyError.Memory }
    {
        let passes = Passes {
            parts: *self,
            way: Way::Back,
        };
        pass_rows(&passes, alloc, block, first, work)
    }

    /// The inverses of a block of any `count` columns, after those of the rows: each column of the answer
    /// is that whose transform over the domain of the columns is the block's. `Memory` is the only error.
    pub fn columns_back<T: DomainCoeff<F>>(
        &self,
        alloc: Global,
        block: &[T],
        count: usize,
        work: &mut Work,
    ) -> Result<Vec<T>, PolyError>
        requires size { length block.now ≡ self.now.column.size * count }
        ensures size { IfOk result (λ v. length v.items ≡ length block.now) }
        ensures columns { IfOk result (λ v. (j : ℕ) → j < count → IsInverse F.field T.group
            (of_columns F.field (coset_domain radix2 self.now.whole) self.now.column.size self.now.row.size)
            (column T.group self.now.column.size count (map T.meaning block.now) j)
            (column T.group self.now.column.size count (map T.meaning v.items) j)) }
        ensures counted { OnOk result (GrowsByTransforms count self.now.column.size work.old work.new) }
        ensures memory { IsOkUnless result PolyError.Memory }
    {
        let passes = Passes {
            parts: *self,
            way: Way::Back,
        };
        pass_columns(&passes, alloc, block, count, work)
    }
}
