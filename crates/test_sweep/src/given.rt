//! What the words of a call name.

use ark_base::PolyError;
use ark_poly::EvaluationDomain;
use std::alloc::{AllocError, Global};
use test_cases::words::{element, size};
use test_types::numbered::Numbered;

/// The value of this name, or the empty word: a word is a name, an equals sign and a value.
pub fn named<'a>(words: &'a [String], name: &str) -> &'a str {
    for word in words {
        if let Some((key, value)) = word.as_str().split_once('=') {
            if key == name {
                return value;
            }
        }
    }
    ""
}

/// The size of this name, or zero.
pub fn size_named(words: &[String], name: &str) -> usize {
    size(named(words, name))
}

/// The element of this name, or zero.
pub fn element_named<F: Numbered>(words: &[String], name: &str) -> F {
    element(named(words, name))
}

/// The domain of this name: a size, a stroke and an offset. Without a word it has one element.
pub fn domain_named<F: Numbered, D: EvaluationDomain<F>>(
    words: &[String],
    name: &str,
) -> Result<D, PolyError> {
    match named(words, name).split_once('/') {
        Some((number, offset)) => D::new_coset(size(number), element(offset)),
        None => D::new(1),
    }
    .ok_or(PolyError::NoDomain)
}

/// The pairs of numbers between points, with a caret in each.
pub fn pairs_of(alloc: Global, word: &str) -> Result<Vec<(usize, usize)>, AllocError> {
    let mut pairs = Vec::new(alloc);
    if !word.is_empty() {
        for piece in word.split('.') {
            let (variable, power) = piece.split_once('^').unwrap_or(("", ""));
            pairs.push((size(variable), size(power)))?;
        }
    }
    Ok(pairs)
}
