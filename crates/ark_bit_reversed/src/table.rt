//! Tables of roots of unity.

ghost use Rattle.std.specs.Prelude.{◌≡◌, ◌≢◌, ◌↔◌, ℕ, ◌+◌, ◌<◌, ◌≤◌, max, length, IfOk, IfSome, IsNone};
ghost use Rattle.ark_math.specs.Domain.{radix2, HasNone, IsLeast, IsSize};
ghost use Rattle.ark_math.specs.Field.{power};
ghost use Rattle.ark_math.specs.Univariate.{of_list};
ghost use Rattle.ark_bit_reversed.specs.Blocks.{AreInverseRoots, AreReversed, AreRoots, IsPowerOfTwo, element_of, size_of};

use crate::values::element;
use ark_traits::{FftField, Field};
use std::alloc::{AllocError, Global};
use std::marker::Model;

/// The roots of unity by which polynomials are evaluated at the elements of a subgroup of a power of two elements, in
/// bit-reversed order: the first `m` of them, for each power of two `m`, are the subgroup of `m` elements, and those
/// from `b * m` on as many as that a coset of it.
///
/// Contracts see the list of roots, which has the first of each two elements: the second is minus the first.
#[derive(Drop)]
pub struct BlockRoots<F: FftField> {
    pub(crate) roots: Vec<F>,
    pub(crate) inverses: Vec<F>,
    // The inverse of two.
    pub(crate) half: F,
}

impl<F: FftField> Model for BlockRoots<F> {
    ghost use Rattle.std.specs.Prelude.{List};
    ghost use Rattle.ark_bit_reversed.specs.Blocks.{AreTables};

    ghost Value = { List F };

    ghost view = { λ b. b.roots.items };

    ghost invariant = { λ b. AreTables F.field b.roots.items b.inverses.items b.half };
}

impl<F: FftField> BlockRoots<F> {
    /// The table of the least power of two, from two on, that isn't below `count`. `None` exactly where the
    /// field has no root of unity of such an order that fits 64 bits. An element of the second half is the one as many
    /// places before times the root of unity of the table's order.
    pub fn new(alloc: Global, count: usize) -> Result<Option<Self>, AllocError>
        ensures room { IfOk result (λ found. IfSome found (λ b. count ≤ size_of b)) }
        ensures least { IfOk result (λ found. IfSome found
            (λ b. IsLeast (IsSize F.adicity radix2) (max count 2) (size_of b))) }
        ensures none { IfOk result (λ found. IsNone found ↔ HasNone (IsSize F.adicity radix2) (max count 2)) }
        ensures next { IfOk result (λ found. IfSome found (λ b. (i : ℕ) → i < length b
            → element_of F.field b (length b + i) ≡ F.field.times (element_of F.field b i) (F.root (size_of b)))) }
    {
        let Some(size) = count.max(2).checked_next_power_of_two() else {
            return Ok(None);
        };
        let Some(root) = F::get_root_of_unity(size as u64) else {
            return Ok(None);
        };
        let one = F::one();
        let Some(half) = (one + one).inverse() else {
            return Ok(None);
        };
        let mut roots = Vec::new(alloc);
        roots.resize(size / 2, one)?;
        fill(roots.as_mut_slice(), root);
        let inverses = inverses(alloc, &roots)?;
        Ok(Some(BlockRoots {
            roots,
            inverses,
            half,
        }))
    }

    /// How many elements there are: a power of two. No two of them are one.
    pub fn size(&self) -> usize
        ensures size { result ≡ size_of self.now }
        ensures power { IsPowerOfTwo result }
        ensures elements { AreReversed F.field result (element_of F.field self.now) }
        ensures different { (i j : ℕ) → i < j → j < result
            → element_of F.field self.now i ≢ element_of F.field self.now j }
    {
        2 * self.roots.len()
    }

    /// The element of this index: each second is minus the one before.
    #[inline(always)]
    pub fn element(&self, index: usize) -> F
        requires { index < size_of self.now }
        ensures { result ≡ element_of F.field self.now index }
    {
        element(&self.roots, index)
    }

    /// The inverse of two.
    pub fn half(&self) -> F
        ensures { F.field.times (F.field.plus F.field.one F.field.one) result ≡ F.field.one }
    {
        self.half
    }
}

// Fills a list with the roots: a power of this one, of twice the list's order, is minus one. Each of the second half
// is one of the first times the root.
fn fill<F: Field>(roots: &mut [F], root: F)
    requires size { IsPowerOfTwo (length roots.old) }
    requires root { power F.field root (length roots.old) ≡ F.field.negated F.field.one }
    ensures len { length roots.new ≡ length roots.old }
    ensures roots { AreRoots F.field (element_of F.field roots.new) roots.new }
    ensures next { (i : ℕ) → i < length roots.old → element_of F.field roots.new (length roots.old + i)
        ≡ F.field.times (element_of F.field roots.new i) root }
{
    let half = roots.len() / 2;
    if half == 0 {
        roots[0] = F::one();
    } else {
        let (low, high) = roots.split_at_mut(half);
        fill(low, root * root);
        multiply_each(high, low, root);
    }
}

// Puts the products of each known item and the factor in a list.
fn multiply_each<F: Field>(items: &mut [F], known: &[F], factor: F)
    requires { length items.old ≡ length known.now }
    ensures len { length items.new ≡ length items.old }
    ensures products { (i : ℕ) → i < length known.now → of_list F.field items.new i
        ≡ F.field.times (of_list F.field known.now i) factor }
{
    for i in 0..known.len() {
        items[i] = known[i] * factor;
    }
}

// The inverses of roots: of each its own product with the inverse of its square, which is an earlier one's or minus
// that.
fn inverses<F: Field>(alloc: Global, roots: &[F]) -> Result<Vec<F>, AllocError>
    requires some { 0 < length roots.now }
    ensures inverses { IfOk result (λ v. (x : ℕ → F) → AreRoots F.field x roots.now
        → AreInverseRoots F.field x v.items) }
    ensures len { IfOk result (λ v. length v.items ≡ length roots.now) }
{
    let mut inverses = Vec::with_capacity(alloc, roots.len())?;
    inverses.push(F::one())?;
    for i in 1..roots.len() {
        let square = inverses[i / 2];
        inverses.push(if i % 2 == 0 {
            roots[i] * square
        } else {
            -(roots[i] * square)
        })?;
    }
    Ok(inverses)
}
