//! What the numbers of a file's blocks are computed by, made once a file.

ghost use Rattle.std.specs.Prelude.{◌≡◌, ◌≢◌, ℕ, ◌+◌, ◌-◌, ◌<◌, ◌≤◌, ◌^◌, length, get_or, true, false, IfOk};
ghost use Rattle.std.specs.List.{range_with_len};
ghost use Rattle.shards_format.specs.Files.{AreApart};
ghost use Rattle.shards_format.specs.Places.{AreMissing, IsAmong};

use crate::code::StripeCode;
use std::alloc::{AllocError, Global};

/// An extender of a code, and the places that it is for.
///
/// Contracts see all three.
#[derive(Drop)]
pub struct PlacedExtender<C: StripeCode> {
    /// The extender.
    pub extender: C::Extender,
    /// The places that are given to it.
    pub given: Vec<usize>,
    /// The places that are wanted of it.
    pub wanted: Vec<usize>,
    ghost given_are: { C.given_of extender ≡ given.items },
    ghost wanted_are: { C.wanted_of extender ≡ wanted.items },
    ghost apart: { AreApart given.items },
}

/// What splitting takes: from the first `k` places to all the others.
pub fn parity_extender<C: StripeCode>(
    alloc: Global,
    code: &C,
) -> Result<PlacedExtender<C>, AllocError>
    ensures code { IfOk result (λ e. C.is_of code.now e.extender) }
    ensures given { IfOk result (λ e. e.given.items ≡ range_with_len 0 (C.k_of code.now)) }
    ensures wanted { IfOk result (λ e. e.wanted.items
        ≡ range_with_len (C.k_of code.now) (C.n_of code.now - C.k_of code.now)) }
{
    let k = code.k();
    let given = places_from(alloc, 0, k)?;
    let wanted = places_from(alloc, k, code.n() - k)?;
    placed_extender(alloc, code, given, wanted)
}

/// What joining takes: from these `k` places to those of the first `k` that are not among them.
pub fn data_extender<C: StripeCode>(
    alloc: Global,
    code: &C,
    places: &[usize],
) -> Result<PlacedExtender<C>, AllocError>
    requires places { length places.now ≡ C.k_of code.now }
    requires below { (a : ℕ) → a < length places.now → get_or places.now a 0 < C.n_of code.now }
    requires apart { AreApart places.now }
    ensures code { IfOk result (λ e. C.is_of code.now e.extender) }
    ensures given { IfOk result (λ e. e.given.items ≡ places.now) }
    ensures missing { IfOk result (λ e. AreMissing (C.k_of code.now) places.now e.wanted.items) }
{
    let given = Vec::from_slice(alloc, places)?;
    let missing = missing_places(alloc, code.k(), places)?;
    placed_extender(alloc, code, given, missing)
}

/// What repairing takes: from these `k` places to the wanted ones.
pub fn repair_extender<C: StripeCode>(
    alloc: Global,
    code: &C,
    given: &[usize],
    wanted: &[usize],
) -> Result<PlacedExtender<C>, AllocError>
    requires given { length given.now ≡ C.k_of code.now }
    requires given_below { (a : ℕ) → a < length given.now → get_or given.now a 0 < C.n_of code.now }
    requires apart { AreApart given.now }
    requires wanted_below { (b : ℕ) → b < length wanted.now → get_or wanted.now b 0 < C.n_of code.now }
    ensures code { IfOk result (λ e. C.is_of code.now e.extender) }
    ensures given { IfOk result (λ e. e.given.items ≡ given.now) }
    ensures wanted { IfOk result (λ e. e.wanted.items ≡ wanted.now) }
{
    let from = Vec::from_slice(alloc, given)?;
    let to = Vec::from_slice(alloc, wanted)?;
    placed_extender(alloc, code, from, to)
}

// The extender for these places.
fn placed_extender<C: StripeCode>(
    alloc: Global,
    code: &C,
    given: Vec<usize>,
    wanted: Vec<usize>,
) -> Result<PlacedExtender<C>, AllocError>
    requires given { length given.items ≡ C.k_of code.now }
    requires given_below { (a : ℕ) → a < length given.items → get_or given.items a 0 < C.n_of code.now }
    requires apart { AreApart given.items }
    requires wanted_below { (b : ℕ) → b < length wanted.items → get_or wanted.items b 0 < C.n_of code.now }
    ensures code { IfOk result (λ e. C.is_of code.now e.extender) }
    ensures given { IfOk result (λ e. e.given.items ≡ given.items) }
    ensures wanted { IfOk result (λ e. e.wanted.items ≡ wanted.items) }
{
    let extender = code.extender(alloc, &given, &wanted)?;
    Ok(PlacedExtender {
        extender,
        given,
        wanted,
    })
}

/// So many places, one after another.
pub fn places_from(alloc: Global, first: usize, count: usize) -> Result<Vec<usize>, AllocError>
    requires { first + count < 2 ^ 64 }
    ensures { IfOk result (λ places. places.items ≡ range_with_len first count) }
{
    (first..first + count).collect(alloc)
}

/// Those of the first `k` places that are not among these, the least first.
pub fn missing_places(alloc: Global, k: usize, places: &[usize]) -> Result<Vec<usize>, AllocError>
    requires { k ≤ 65536 }
    ensures { IfOk result (λ missing. AreMissing k places.now missing.items) }
{
    let mut is_given = vec![in alloc; false; k]?;
    mark_places(is_given.as_mut_slice(), places);
    let missing = unmarked_places(alloc, &is_given)?;
    Ok(missing)
}

/// Those of the first `n` places that are among these, each once, the least first.
pub fn different_places(
    alloc: Global,
    n: usize,
    numbers: &[usize],
) -> Result<Vec<usize>, AllocError>
    requires { n ≤ 65536 }
    ensures below { IfOk result (λ places. (a : ℕ) → a < length places.items → get_or places.items a 0 < n) }
    ensures apart { IfOk result (λ places. AreApart places.items) }
    ensures given { IfOk result (λ places. (a : ℕ) → a < length places.items
        → IsAmong numbers.now (get_or places.items a 0)) }
    ensures all { IfOk result (λ places. (j : ℕ) → j < n → IsAmong numbers.now j → IsAmong places.items j) }
{
    let missing = missing_places(alloc, n, numbers)?;
    let places = missing_places(alloc, n, &missing)?;
    Ok(places)
}

// Marks these places.
fn mark_places(marks: &mut [bool], places: &[usize])
    requires { (j : ℕ) → j < length marks.old → get_or marks.old j false ≡ false }
    ensures marked { (j : ℕ) → j < length marks.old → IsAmong places.now j → get_or marks.new j false ≡ true }
    ensures others { (j : ℕ) → j < length marks.old → get_or marks.new j false ≡ true → IsAmong places.now j }
{
    let count = marks.len();
    for place in places {
        if *place < count {
            marks[*place] = true;
        }
    }
}

// The places without a mark, the least first.
fn unmarked_places(alloc: Global, marks: &[bool]) -> Result<Vec<usize>, AllocError>
    ensures few { IfOk result (λ places. length places.items ≤ length marks.now) }
    ensures below { IfOk result (λ places. (b : ℕ) → b < length places.items
        → get_or places.items b 0 < length marks.now) }
    ensures apart { IfOk result (λ places. AreApart places.items) }
    ensures unmarked { IfOk result (λ places. (b : ℕ) → b < length places.items
        → get_or marks.now (get_or places.items b 0) false ≡ false) }
    ensures all { IfOk result (λ places. (j : ℕ) → j < length marks.now → get_or marks.now j false ≡ false
        → IsAmong places.items j) }
{
    let mut places = Vec::new(alloc);
    for j in 0..marks.len() {
        if !marks[j] {
            places.push(j)?;
        }
    }
    Ok(places)
}
