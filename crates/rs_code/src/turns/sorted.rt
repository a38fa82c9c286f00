//! Places by fours of which each is a quarter turn of the last, sorted by how they are erased.

ghost use Rattle.std.specs.Prelude.{◌≡◌, ℕ, ◌+◌, ◌*◌, ◌^◌, ◌<◌, [], length, get_or, map, IfOk, if◌then◌else◌};
ghost use Rattle.ark_bit_reversed.specs.Blocks.{IsPowerOfTwo, size_of};
ghost use Rattle.ark_math_transforms.specs.BitReversal.{reversed};
ghost use Rattle.ark_math.specs.Domain.{Domain};
ghost use Rattle.ark_math.specs.Root.{HasOrder};
ghost use Rattle.rs_code.specs.Turns.{AreSorted, IsTableOf, alternating, finished, marked_first, roots_of, turn_place, turned};

use ark_bit_reversed::BlockRoots;
use ark_bit_reversed::items::square_each;
use ark_traits::{FftField, Field};
use std::alloc::{AllocError, Global};
use std::marker::Model;

// By the marks of four places, of which the first is the lowest bit: the number of their pattern, and which of their
// neighbours in a table it begins with. The patterns are how many are erased in a row, and 5 is two that are opposite.
static PATTERNS: [(usize, usize); 16] = [
    (0, 0),
    (1, 0),
    (1, 2),
    (2, 0),
    (1, 1),
    (5, 0),
    (2, 2),
    (3, 0),
    (1, 3),
    (2, 3),
    (5, 2),
    (3, 3),
    (2, 1),
    (3, 1),
    (3, 2),
    (4, 0),
];

/// Places sorted by how they and their turns are erased: for each four one root, in the list of its pattern, and what the
/// products of values are to be multiplied by.
#[derive(Drop)]
pub struct Sorted<F: Field> {
    // The first of one, two or three erased places in a row.
    pub(crate) one: Vec<F>,
    pub(crate) two: Vec<F>,
    pub(crate) three: Vec<F>,
    // The square of two opposite erased ones, and the fourth power where all four are erased, or none.
    pub(crate) opposite: Vec<F>,
    pub(crate) all: Vec<F>,
    pub(crate) none: Vec<F>,
    pub(crate) erased_scale: F,
    pub(crate) kept_scale: F,
}

impl<F: Field> Model for Sorted<F> {
    ghost use Rattle.rs_code.specs.Turns.{Sorted};

    ghost Value = { Sorted F };

    ghost view = { λ s. record {
      one = s.one.items;
      two = s.two.items;
      three = s.three.items;
      opposite = s.opposite.items;
      all = s.all.items;
      none = s.none.items;
      erased_scale = s.erased_scale;
      kept_scale = s.kept_scale;
    } };
}

/// The places of a subgroup sorted by the marks of the erased ones, from a table of its elements; `fours` has the numbers
/// below a quarter of its size with their bits backwards. No branch waits for a mark.
pub fn sorted_by_turns<F: FftField>(
    alloc: Global,
    table: &BlockRoots<F>,
    fours: &[usize],
    erased: &[bool],
) -> Result<Sorted<F>, AllocError>
    requires power { IsPowerOfTwo (length fours.now) }
    requires places { (levels j : ℕ) → length fours.now ≡ 2 ^ levels → j < length fours.now
        → get_or fours.now j 0 ≡ reversed levels j }
    requires size { 4 * length fours.now ≡ size_of table.now }
    requires len { length erased.now ≡ size_of table.now }
    ensures { IfOk result (λ s. (d : Domain F) → d.offset ≡ F.field.one → HasOrder F.field d.root d.size
        → IsTableOf F.field d table.now → AreSorted F.field d (length fours.now) erased.now s) }
{
    let quarter = fours.len();
    let mut lists = empty_lists(alloc, quarter)?;
    for j in 0..quarter {
        let (pattern, place) = pattern_of(
            erased[j],
            erased[j + quarter],
            erased[j + quarter + quarter],
            erased[j + quarter + quarter + quarter],
        );
        lists[pattern].push(table.element(4 * fours[j] + place))?;
    }
    let roots = apart(lists);
    Ok(finish(table.element(2), roots))
}

// A list for each pattern, with room for so many roots.
fn empty_lists<F: Field>(alloc: Global, room: usize) -> Result<[Vec<F>; 6], AllocError>
    ensures len { IfOk result (λ lists. length lists ≡ 6) }
    ensures empty { IfOk result (λ lists. (p : ℕ) → roots_of lists p ≡ []) }
{
    Ok([
        Vec::with_capacity(alloc, room)?,
        Vec::with_capacity(alloc, room)?,
        Vec::with_capacity(alloc, room)?,
        Vec::with_capacity(alloc, room)?,
        Vec::with_capacity(alloc, room)?,
        Vec::with_capacity(alloc, room)?,
    ])
}

// The pattern of four places with these marks, and which of their neighbours in a table it begins with.
#[inline(always)]
fn pattern_of(first: bool, second: bool, third: bool, fourth: bool) -> (usize, usize)
    ensures marked { turned (turn_place result.1) (record { first = first; second = second; third = third; fourth = fourth })
        ≡ marked_first result.0 }
    ensures pattern { result.0 < 6 }
    ensures place { result.1 < 4 }
{
    PATTERNS[bit(first) + 2 * bit(second) + 4 * bit(third) + 8 * bit(fourth)]
}

// One where there is a mark, else zero.
#[inline(always)]
fn bit(mark: bool) -> usize
    ensures { result ≡ if mark then 1 else 0 }
{
    if mark { 1 } else { 0 }
}

// Roots by the pattern of their fours: how many places in a row are erased from the root on, or two that are opposite.
#[derive(Drop)]
struct RootsByPattern<F: Field> {
    none: Vec<F>,
    one: Vec<F>,
    two: Vec<F>,
    three: Vec<F>,
    all: Vec<F>,
    opposite: Vec<F>,
}

// The list of each pattern by its name.
fn apart<F: Field>(lists: [Vec<F>; 6]) -> RootsByPattern<F>
    ensures none { result.none.items ≡ roots_of lists 0 }
    ensures one { result.one.items ≡ roots_of lists 1 }
    ensures two { result.two.items ≡ roots_of lists 2 }
    ensures three { result.three.items ≡ roots_of lists 3 }
    ensures all { result.all.items ≡ roots_of lists 4 }
    ensures opposite { result.opposite.items ≡ roots_of lists 5 }
{
    let [none, one, two, three, all, opposite] = lists;
    RootsByPattern {
        none,
        one,
        two,
        three,
        all,
        opposite,
    }
}

// What the roots of each pattern give; a quarter turn is told.
fn finish<F: Field>(turn: F, roots: RootsByPattern<F>) -> Sorted<F>
    requires turns { length roots.two.items + length roots.three.items < 2 ^ 64 }
    requires signs { length roots.one.items + length roots.three.items + length roots.opposite.items < 2 ^ 64 }
    ensures { result ≡ finished F.field turn roots.none.items roots.one.items roots.two.items roots.three.items
        roots.all.items roots.opposite.items }
{
    let RootsByPattern {
        none,
        one,
        two,
        three,
        all,
        opposite,
    } = roots;
    let power = turn.pow((two.len() + three.len()) as u64);
    let erased_scale = signed(three.len(), power);
    let kept_scale = signed(one.len() + three.len() + opposite.len(), power);
    Sorted {
        one,
        two,
        three,
        opposite: squares(opposite),
        all: squares(squares(all)),
        none: squares(squares(none)),
        erased_scale,
        kept_scale,
    }
}

// The squares of the items, in their place.
fn squares<F: Field>(items: Vec<F>) -> Vec<F>
    ensures { result.items ≡ map (λ r. F.field.times r r) items.items }
{
    let mut items = items;
    square_each(items.as_mut_slice());
    items
}

// The value with so many signs.
fn signed<F: Field>(signs: usize, value: F) -> F
    ensures { result ≡ alternating F.field signs value }
{
    if signs % 2 == 0 { value } else { -value }
}
