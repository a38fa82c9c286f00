//! What words say, and the texts of answers.

use crate::answers::Answer;
use std::alloc::{AllocError, Global};
use std::fmt::{Debug, Display};
use test_types::numbered::Numbered;

/// The pieces between the separators, and none of the empty text. The piece `-` is the empty word.
pub fn words_of(alloc: Global, text: &str, separator: char) -> Result<Vec<String>, AllocError> {
    let mut words = Vec::new(alloc);
    if text.is_empty() {
        return Ok(words);
    }
    for piece in text.split(separator) {
        let word = if piece == "-" { "" } else { piece };
        words.push(word.to_string(alloc)?)?;
    }
    Ok(words)
}

/// The number that the word spells, or zero.
pub fn number(word: &str) -> u64 {
    word.parse().unwrap_or(0)
}

/// The size that the word spells, or zero.
pub fn size(word: &str) -> usize {
    number(word) as usize
}

/// The element whose number the word spells.
pub fn element<F: Numbered>(word: &str) -> F {
    F::of_text(word)
}

/// The elements whose numbers stand between commas.
pub fn elements<F: Numbered>(alloc: Global, word: &str) -> Result<Vec<F>, AllocError> {
    let mut elements = Vec::new(alloc);
    if !word.is_empty() {
        for piece in word.split(',') {
            elements.push(element::<F>(piece))?;
        }
    }
    Ok(elements)
}

/// The terms that stand between commas.
pub fn terms_of<F: Numbered>(alloc: Global, word: &str) -> Result<Vec<(usize, F)>, AllocError> {
    let mut terms = Vec::new(alloc);
    if !word.is_empty() {
        for piece in word.split(',') {
            terms.push(term::<F>(piece))?;
        }
    }
    Ok(terms)
}

// The term that the word spells: degree, colon, coefficient.
fn term<F: Numbered>(word: &str) -> (usize, F) {
    let (degree, coefficient) = word.split_once(':').unwrap_or(("", ""));
    (size(degree), element(coefficient))
}

/// The number of variables of a table, and its entries. The word has the number, a stroke and the entries as terms,
/// or all values between commas.
pub fn table_of<F: Numbered>(
    alloc: Global,
    word: &str,
) -> Result<(usize, Vec<(usize, F)>), AllocError> {
    if let Some((num_vars, entries)) = word.split_once('/') {
        return Ok((size(num_vars), terms_of(alloc, entries)?));
    }
    let entries = with_places::<F>(alloc, word)?;
    Ok((entries.len().trailing_zeros() as usize, entries))
}

// The elements whose numbers stand between commas, each after its place.
fn with_places<F: Numbered>(alloc: Global, word: &str) -> Result<Vec<(usize, F)>, AllocError> {
    let values = elements::<F>(alloc, word)?;
    let mut entries = Vec::new(alloc);
    for (index, value) in values.iter().enumerate() {
        entries.push((index, *value))?;
    }
    Ok(entries)
}

/// The text as an answer.
pub fn told(alloc: Global, text: &str) -> Answer {
    Ok(text.to_string(alloc)?)
}

/// The answer to words that say nothing to a program.
pub fn no_case(alloc: Global) -> Answer {
    told(alloc, "no case")
}

/// The answer where a point or another polynomial does not fit.
pub fn no_fit(alloc: Global) -> Answer {
    told(alloc, "does not fit")
}

/// Both answers, with the separator between them.
pub fn joined(alloc: Global, first: Answer, separator: &str, second: Answer) -> Answer {
    let (first, second) = (first?, second?);
    Ok(format!(in alloc; "{first}{separator}{second}")?)
}

/// The text for debugging, with a semicolon for each end of a line.
pub fn debug<T: Debug>(alloc: Global, value: &T) -> Answer {
    let text = format!(in alloc; "{value:?}")?;
    Ok(text.replace(alloc, "\n", ";")?)
}

/// What holds and what does not, with commas between them.
pub fn text_of_flags(alloc: Global, flags: &[bool]) -> Answer {
    let mut text = String::new(alloc);
    for (i, flag) in flags.iter().enumerate() {
        let comma = if i > 0 { "," } else { "" };
        write!(text, "{comma}{flag}")?;
    }
    Ok(text)
}

/// The numbers, or the numbers of the elements, with commas between them.
pub fn text_of_numbers<T: Display>(alloc: Global, numbers: &[T]) -> Answer {
    let mut text = String::new(alloc);
    for (i, number) in numbers.iter().enumerate() {
        let comma = if i > 0 { "," } else { "" };
        write!(text, "{comma}{number}")?;
    }
    Ok(text)
}

/// The numbers of the elements, with commas between them.
pub fn text_of<F: Numbered>(alloc: Global, elements: &[F]) -> Answer {
    text_of_numbers(alloc, elements)
}

/// The number of the element.
pub fn one<F: Numbered>(alloc: Global, element: F) -> Answer {
    Ok(element.to_string(alloc)?)
}

/// The terms of a polynomial: degree, colon, coefficient.
pub fn text_of_terms<F: Numbered>(alloc: Global, terms: &[(usize, F)]) -> Answer {
    let mut text = String::new(alloc);
    for (i, (degree, coefficient)) in terms.iter().enumerate() {
        let comma = if i > 0 { "," } else { "" };
        write!(text, "{comma}{degree}:{coefficient}")?;
    }
    Ok(text)
}
