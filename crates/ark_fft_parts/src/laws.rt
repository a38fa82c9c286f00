//! What the parts make together, stated as contracts of functions that callers may cite: they promise
//! nothing but their contracts. Each speaks of columns and rows one by one, so that cuts into blocks, and
//! their order, make no difference.

ghost use Rattle.std.specs.Prelude.{◌≡◌, ℕ, ◌+◌, ◌≤◌, List, length};
ghost use Rattle.ark_math.specs.Cost.{Counts};
ghost use Rattle.ark_math.specs.Domain.{radix2};
ghost use Rattle.ark_math.specs.Module.{itself};
ghost use Rattle.ark_math.specs.Transform.{transform, IsInverse};
ghost use Rattle.ark_math.specs.Univariate.{IsBelow, of_list, product};
ghost use Rattle.ark_fft.specs.Coset.{coset_domain};
ghost use Rattle.ark_fft_parts.specs.Counting.{GrowsByParts, GrowsByTransforms};
ghost use Rattle.ark_fft_parts.specs.Parts.{AreColumnsMade, AreColumnsUnmade, AreInParts, AreProducts};
ghost use Rattle.ark_fft_parts.specs.Parts.{AreRowsMade, AreRowsUnmade};

use crate::parts::Parts;
use ark_traits::{DomainCoeff, FftField};

/// A law: where each column is the transform of the list's, and each row the transform of the row of the
/// columns' items, item `j` of row `i` is item `i + r * j` of the list's transform.
pub fn parts_make_the_transform<F: FftField, T: DomainCoeff<F>>(parts: &Parts<F>)
    ensures { (xs : List T.Meaning) (columns rows : ℕ → List T.Meaning)
        → AreColumnsMade F.field T.group (coset_domain radix2 parts.now.whole) parts.now.column.size
        parts.now.row.size xs columns
        → AreRowsMade F.field T.group (coset_domain radix2 parts.now.whole) parts.now.column.size
        parts.now.row.size columns rows
        → AreInParts T.group parts.now.column.size parts.now.row.size
        (transform F.field T.group (coset_domain radix2 parts.now.whole) xs) rows }
{
    let _ = &parts.whole;
}

/// A law: where the rows hold values in the parts' order, and each was taken back, and then each column,
/// the list of these columns is the inverse of the values.
pub fn parts_make_the_inverse<F: FftField, T: DomainCoeff<F>>(parts: &Parts<F>)
    ensures { (values xs : List T.Meaning) (rows before : ℕ → List T.Meaning)
        → length xs ≡ parts.now.whole.size
        → AreInParts T.group parts.now.column.size parts.now.row.size values rows
        → AreRowsUnmade F.field T.group (coset_domain radix2 parts.now.whole) parts.now.column.size
        parts.now.row.size rows before
        → AreColumnsUnmade F.field T.group (coset_domain radix2 parts.now.whole) parts.now.column.size
        parts.now.row.size before xs
        → IsInverse F.field T.group (coset_domain radix2 parts.now.whole) values xs }
{
    let _ = &parts.whole;
}

/// A law: the values of two polynomials in the parts' order, multiplied place by place and taken back by
/// parts, give the coefficients of the product, where that is below the size. Nothing is put in order in
/// between.
pub fn parts_make_the_product<F: FftField>(parts: &Parts<F>)
    ensures { (a b x : List F) (p q rows before : ℕ → List F)
        → length a ≤ parts.now.whole.size → length b ≤ parts.now.whole.size
        → length x ≡ parts.now.whole.size
        → IsBelow F.field parts.now.whole.size (product F.field (of_list F.field a) (of_list F.field b))
        → AreInParts (itself F.field) parts.now.column.size parts.now.row.size
        (transform F.field (itself F.field) (coset_domain radix2 parts.now.whole) a) p
        → AreInParts (itself F.field) parts.now.column.size parts.now.row.size
        (transform F.field (itself F.field) (coset_domain radix2 parts.now.whole) b) q
        → AreProducts F.field parts.now.column.size parts.now.row.size p q rows
        → AreRowsUnmade F.field (itself F.field) (coset_domain radix2 parts.now.whole) parts.now.column.size
        parts.now.row.size rows before
        → AreColumnsUnmade F.field (itself F.field) (coset_domain radix2 parts.now.whole)
        parts.now.column.size parts.now.row.size before x
        → of_list F.field x ≡ product F.field (of_list F.field a) (of_list F.field b) }
{
    let _ = &parts.whole;
}

/// A law: the counts of blocks add up to those of a block of all their lists, and those of all columns and
/// all rows, in either order, to as many butterflies as one transform of all items has, and at most two
/// scalings an item.
pub fn parts_cost<F: FftField>(parts: &Parts<F>)
    ensures cuts { (n j k : ℕ) (before between after : Counts) → GrowsByTransforms j n before between
        → GrowsByTransforms k n between after → GrowsByTransforms (j + k) n before after }
    ensures passes { (before between after : Counts)
        → GrowsByTransforms parts.now.row.size parts.now.column.size before between
        → GrowsByTransforms parts.now.column.size parts.now.row.size between after
        → GrowsByParts parts.now.whole.size before after }
    ensures back { (before between after : Counts)
        → GrowsByTransforms parts.now.column.size parts.now.row.size before between
        → GrowsByTransforms parts.now.row.size parts.now.column.size between after
        → GrowsByParts parts.now.whole.size before after }
{
    let _ = &parts.whole;
}
