//! Rows that hold a group of stripes, a lane for each: lane `t` is that of stripe `first + t`.

ghost use Rattle.std.specs.Prelude.{◌≡◌, ◌≢◌, ℕ, ◌+◌, ◌*◌, ◌<◌, ◌≤◌, get_or, length, IfOk};
ghost use Rattle.ark_math.specs.Field.{natural};
ghost use Rattle.ark_rows.specs.Row.{lanes};
ghost use Rattle.shards_lib.specs.Rows.{entry};

use crate::field::NumberField;
use ark_base::Zero;
use ark_rows::Row;
use shards_format::PlacedNumbers;
use std::alloc::{AllocError, Global};

/// Some of the stripes, one after another.
#[derive(Clone, Copy)]
pub struct StripeGroup {
    /// The first of them.
    pub first: usize,
    /// How many they are.
    pub count: usize,
    /// How many stripes there are in all.
    pub all: usize,
    ghost within: { first + count ≤ all },
}

/// Writes the numbers of a group at places: first those at the first of them, from its row.
pub fn put_rows<F: NumberField, const N: usize>(
    rows: &[Row<F, N>],
    places: &[usize],
    group: StripeGroup,
    numbers: &mut [u32],
)
    requires count { group.count ≤ N }
    requires below { (b : ℕ) → b < length places.now → get_or places.now b 0 < length rows.now }
    requires numbers { length numbers.old ≡ length places.now * group.all }
    ensures written { (b t : ℕ) → b < length places.now → t < group.count
        → get_or numbers.new (b * group.all + (group.first + t)) 0
        ≡ F.number (entry F.field rows.now (get_or places.now b 0) t) }
    ensures kept { (b s : ℕ) → b < length places.now → s < group.first
        → get_or numbers.new (b * group.all + s) 0 ≡ get_or numbers.old (b * group.all + s) 0 }
{
    for b in 0..places.len() {
        let start = b * group.all + group.first;
        put_row(&rows[places[b]], &mut numbers[start..start + group.count]);
    }
}

// Writes the numbers of the first lanes.
fn put_row<F: NumberField, const N: usize>(row: &Row<F, N>, numbers: &mut [u32])
    requires { length numbers.old ≤ N }
    ensures { (t : ℕ) → t < length numbers.old → get_or numbers.new t 0 ≡ F.number (lanes F.field row.now t) }
{
    for t in 0..numbers.len() {
        numbers[t] = row.get(t).to_number();
    }
}

/// The words of a group: row `places[a]` has the numbers that are given for `a`, and the rows at other places are zero.
pub fn word_rows<F: NumberField, const N: usize>(
    alloc: Global,
    size: usize,
    given: &PlacedNumbers<'_>,
    group: StripeGroup,
) -> Result<Vec<Row<F, N>>, AllocError>
    requires count { group.count ≤ N }
    requires stripes { group.all ≡ given.now.stripes }
    requires below { (a : ℕ) → a < length given.now.places.now → get_or given.now.places.now a 0 < size }
    ensures len { IfOk result (λ rows. length rows.items ≡ size) }
    ensures entries { IfOk result (λ rows. (a t : ℕ) → a < length given.now.places.now → t < group.count
        → entry F.field rows.items (get_or given.now.places.now a 0) t
        ≡ natural F.field (get_or given.now.numbers.now (a * group.all + (group.first + t)) 0)) }
{
    let mut rows = vec![in alloc; Row::<F, N>::zero(); size]?;
    put_words(rows.as_mut_slice(), given, group);
    Ok(rows)
}

// Writes the numbers of a group at their places.
fn put_words<F: NumberField, const N: usize>(
    rows: &mut [Row<F, N>],
    given: &PlacedNumbers<'_>,
    group: StripeGroup,
)
    requires count { group.count ≤ N }
    requires stripes { group.all ≡ given.now.stripes }
    requires below { (a : ℕ) → a < length given.now.places.now → get_or given.now.places.now a 0 < length rows.old }
    ensures { (a t : ℕ) → a < length given.now.places.now → t < group.count
        → entry F.field rows.new (get_or given.now.places.now a 0) t
        ≡ natural F.field (get_or given.now.numbers.now (a * group.all + (group.first + t)) 0) }
{
    for a in 0..given.places.len() {
        let start = a * group.all + group.first;
        rows[given.places[a]] = row_of_numbers(&given.numbers[start..start + group.count]);
    }
}

// The numbers as elements.
fn row_of_numbers<F: NumberField, const N: usize>(numbers: &[u32]) -> Row<F, N>
    requires { length numbers.now ≤ N }
    ensures { (t : ℕ) → t < length numbers.now
        → lanes F.field result t ≡ natural F.field (get_or numbers.now t 0) }
{
    let mut row = Row::zero();
    for t in 0..numbers.len() {
        row.set(t, F::from(u64::from(numbers[t])));
    }
    row
}
