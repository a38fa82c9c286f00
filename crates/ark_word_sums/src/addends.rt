//! Addends in words: of each its coefficient, how many factors it has, and the indices of their tables.

ghost use Rattle.std.specs.Prelude.{◌≡◌, ◌≢◌, ◌↔◌, ℕ, List, ◌∷◌, ◌++◌, ◌<◌, All, IfOk, IfSome, IsNone};
ghost use Rattle.std.specs.Prelude.{IsTrue, length};
ghost use Rattle.ark_sum_check.specs.Cube.{Product};
ghost use Rattle.ark_word_sums.specs.Sums.{AreAddends, AreCoefficients, AreOfTables};
ghost use Rattle.ark_word_sums.specs.Read.{numbered};

use crate::error::SumsError;
use ark_sum_check::Addend;
use ark_words::WordElement;
use std::alloc::{AllocError, Global};

/// Whether the words spell addends of so many tables, and the longest has so many factors, or none has any
/// and `degree` is 1.
pub fn are_addends<F: WordElement>(words: &[u64], count: usize, degree: usize) -> bool
    ensures { IsTrue result ↔ ((ps : List (Product ℕ)) × AreAddends F.spelled ps words.now
        × AreOfTables count degree ps) }
{
    let mut longest = 1;
    let mut rest = words;
    while !rest.is_empty() {
        let Some((_, factors, next)) = split_addend(rest, F::WIDTH) else {
            return false;
        };
        if !are_below(factors, count) {
            return false;
        }
        longest = longest.max(factors.len());
        rest = next;
    }
    longest == degree
}

/// Whether the coefficient of each addend is below the modulus.
pub fn are_coefficients<F: WordElement>(words: &[u64]) -> bool
    ensures { (ps : List (Product ℕ)) → AreAddends F.spelled ps words.now
        → IsTrue result ↔ AreCoefficients F.spelled ps }
{
    let mut rest = words;
    while !rest.is_empty() {
        let Some((coefficient, _, next)) = split_addend(rest, F::WIDTH) else {
            return false;
        };
        if F::from_words(coefficient).is_none() {
            return false;
        }
        rest = next;
    }
    true
}

/// The addends that the words spell.
pub fn addends_of<F: WordElement>(alloc: Global, words: &[u64]) -> Result<Vec<Addend<F>>, SumsError>
    ensures spelled { IfOk result (λ read.
        AreAddends F.spelled (numbered F.numbering.number read.items) words.now) }
    ensures reduced { IfOk result (λ read.
        AreCoefficients F.spelled (numbered F.numbering.number read.items)) }
{
    let mut addends = Vec::new(alloc);
    let mut rest = words;
    while !rest.is_empty() {
        let Some((coefficient, factors, next)) = split_addend(rest, F::WIDTH) else {
            return Err(SumsError::Addends);
        };
        let Some(coefficient) = F::from_words(coefficient) else {
            return Err(SumsError::NotReduced);
        };
        let factors = indices(alloc, factors)?;
        addends.push(Addend {
            coefficient,
            factors,
        })?;
        rest = next;
    }
    Ok(addends)
}

fn indices(alloc: Global, words: &[u64]) -> Result<Vec<usize>, AllocError>
    ensures { IfOk result (λ indices. indices.items ≡ words.now) }
{
    let mut indices = Vec::with_capacity(alloc, words.len())?;
    for i in 0..words.len() {
        indices.push(words[i] as usize)?;
    }
    Ok(indices)
}

fn are_below(indices: &[u64], count: usize) -> bool
    ensures { IsTrue result ↔ All (λ i. i < count) indices.now }
{
    indices.iter().all(|index| *index < count as u64)
}

// The words of the first addend's coefficient, its factors, and what follows it.
fn split_addend(words: &[u64], width: usize) -> Option<(&[u64], &[u64], &[u64])>
    ensures width { IfSome result (λ split. length split.0.now ≡ width) }
    ensures words { IfSome result (λ split. words.now
        ≡ split.0.now ++ length split.1.now ∷ (split.1.now ++ split.2.now)) }
    ensures none { IsNone result → (coefficient factors rest : List ℕ) → length coefficient ≡ width
        → words.now ≢ coefficient ++ length factors ∷ (factors ++ rest) }
{
    if words.len() <= width {
        return None;
    }
    let (coefficient, counted) = words.split_at(width);
    let (count, listed) = counted.split_at(1);
    let count = count[0] as usize;
    if listed.len() < count {
        return None;
    }
    let (factors, rest) = listed.split_at(count);
    Some((coefficient, factors, rest))
}
