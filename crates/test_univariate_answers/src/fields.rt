//! Cases of fields: an operation and its arguments.

use ark_base::{FftField, Lanes, batch_inversion, k_adicity, log2};
use std::alloc::Global;
use test_cases::answers::Answer;
use test_cases::words::{
    debug, element, elements, joined, no_case, number, one, size, text_of, text_of_flags,
    text_of_numbers, told,
};
use test_types::numbered::Numbered;

pub fn answer<F: Numbered>(alloc: Global, words: &[String]) -> Answer {
    match words {
        [name] if name.as_str() == "constants" => constants::<F>(alloc),
        [name, word] => answer_of_one::<F>(alloc, name.as_str(), word.as_str()),
        [name, first, second] => {
            answer_of_two::<F>(alloc, name.as_str(), first.as_str(), second.as_str())
        }
        _ => no_case(alloc),
    }
}

// The answer to an operation on one word.
fn answer_of_one<F: Numbered>(alloc: Global, name: &str, word: &str) -> Answer {
    match name {
        "of" => one(alloc, element::<F>(word)),
        "root" => option(alloc, F::get_root_of_unity(number(word))),
        "inverse" => option(alloc, element::<F>(word).inverse()),
        "inverses" => inverses::<F>(alloc, word),
        "log2" => text_of_numbers(alloc, &[u64::from(log2(size(word)))]),
        _ => no_case(alloc),
    }
}

// The answer to an operation on two words.
fn answer_of_two<F: Numbered>(alloc: Global, name: &str, first: &str, second: &str) -> Answer {
    match name {
        "power" => one(alloc, element::<F>(first).pow(number(second))),
        "operators" => operators::<F>(alloc, element(first), element(second)),
        "tests" => tests::<F>(alloc, element(first), element(second)),
        "text" => text::<F>(alloc, element(first), element(second)),
        "adicity" => adicity(alloc, number(first), number(second)),
        _ => no_case(alloc),
    }
}

/// The element's number, or `none`.
pub fn option<F: Numbered>(alloc: Global, element: Option<F>) -> Answer {
    match element {
        Some(element) => one(alloc, element),
        None => told(alloc, "none"),
    }
}

fn adicity(alloc: Global, k: u64, n: u64) -> Answer {
    text_of_numbers(alloc, &[u64::from(k_adicity(k.max(2), n))])
}

// Whether the first element is zero, is one, is less than the second, and equals it.
fn tests<F: FftField>(alloc: Global, x: F, y: F) -> Answer {
    text_of_flags(alloc, &[x.is_zero(), x.is_one(), x < y, x == y])
}

// How `Debug` writes the first element, and the pair of both.
fn text<F: FftField>(alloc: Global, x: F, y: F) -> Answer {
    joined(
        alloc,
        debug(alloc, &x),
        " ",
        debug(alloc, &Lanes::new(x, y)),
    )
}

// Zero, the default and one; then the generator, the exponent of two and the root for it; and then the odd base, its
// exponent and the root for both, where there is one.
fn constants<F: Numbered>(alloc: Global) -> Answer {
    let (zero, default, one) = (F::zero(), F::default(), F::one());
    let units = Ok(format!(in alloc; "{zero},{default},{one}")?);
    let even = even_constants::<F>(alloc);
    let both = joined(alloc, units, " ", even);
    match (
        F::SMALL_SUBGROUP_BASE,
        F::SMALL_SUBGROUP_BASE_ADICITY,
        F::LARGE_SUBGROUP_ROOT_OF_UNITY,
    ) {
        (Some(base), Some(adicity), Some(root)) => {
            let odd = Ok(format!(in alloc; "{base},{adicity},{root}")?);
            joined(alloc, both, " ", odd)
        }
        _ => both,
    }
}

fn even_constants<F: Numbered>(alloc: Global) -> Answer {
    let (generator, adicity, root) = (F::GENERATOR, F::TWO_ADICITY, F::TWO_ADIC_ROOT_OF_UNITY);
    Ok(format!(in alloc; "{generator},{adicity},{root}")?)
}

// The sum, the difference and the product, each by value and in place, the square, and the opposite of the first.
fn operators<F: Numbered>(alloc: Global, x: F, y: F) -> Answer {
    let mut sum = x;
    sum += y;
    let mut difference = x;
    difference -= y;
    let mut product = x;
    product *= y;
    let mut square = x;
    square.square_in_place();
    let by_value = (x + y, x - y, x * y);
    let opposite = -x;
    Ok(format!(in alloc;
        "{},{sum},{},{difference},{},{product},{square},{opposite}",
        by_value.0, by_value.1, by_value.2
    )?)
}

fn inverses<F: Numbered>(alloc: Global, word: &str) -> Answer {
    let mut list = elements::<F>(alloc, word)?;
    batch_inversion(alloc, &mut list)?;
    text_of(alloc, &list)
}
