//! Cases of multilinear extensions, spelled by their tables.

use ark_base::{PolyError, Polynomial};
use ark_multi::{MultilinearExtension, SparseMultilinearExtension};
use ark_poly::laws::{
    Exchange, only_multilinear, value_at_corner, values_with_bound_variables,
    values_with_exchanged_variables,
};
use std::alloc::Global;
use test_cases::answers::Answer;
use test_cases::words::{elements, no_case, no_fit, one, size, table_of};
use test_types::numbered::Numbered;

/// The answer on a table by all its values.
pub fn answer_by_values<F: Numbered>(alloc: Global, words: &[String]) -> Answer {
    let [name, table, arguments @ ..] = words else {
        return no_case(alloc);
    };
    let p = extension::<F>(alloc, table.as_str())?.to_dense_multilinear_extension(alloc)?;
    answer(alloc, name.as_str(), &p, arguments)
}

/// The answer on a table by its entries.
pub fn answer_by_entries<F: Numbered>(alloc: Global, words: &[String]) -> Answer {
    let [name, table, arguments @ ..] = words else {
        return no_case(alloc);
    };
    let p = extension::<F>(alloc, table.as_str())?;
    answer(alloc, name.as_str(), &p, arguments)
}

fn extension<F: Numbered>(
    alloc: Global,
    word: &str,
) -> Result<SparseMultilinearExtension<F>, PolyError> {
    let (num_vars, entries) = table_of::<F>(alloc, word)?;
    if num_vars >= 64 {
        return SparseMultilinearExtension::zero(alloc);
    }
    let len = 1 << num_vars;
    if !entries.iter().all(|entry| entry.0 < len) {
        return SparseMultilinearExtension::zero(alloc);
    }
    SparseMultilinearExtension::from_evaluations(alloc, num_vars, &entries)
}

fn answer<F: Numbered, E: MultilinearExtension<F>>(
    alloc: Global,
    name: &str,
    p: &E,
    arguments: &[String],
) -> Answer {
    match arguments {
        [index] if name == "corner" => at_corner(alloc, p, size(index.as_str())),
        [point] if name == "only" => only(alloc, p, point.as_str()),
        [first, others] if name == "bound" => bound(alloc, p, first.as_str(), others.as_str()),
        [a, b, k, point] if name == "exchanged" => {
            let by = Exchange {
                first: size(a.as_str()),
                second: size(b.as_str()),
                count: size(k.as_str()),
            };
            exchanged(alloc, p, by, point.as_str())
        }
        _ => no_case(alloc),
    }
}

fn at_corner<F: Numbered, E: MultilinearExtension<F>>(
    alloc: Global,
    p: &E,
    index: usize,
) -> Answer {
    if p.num_vars() >= 64 || index >= 1 << p.num_vars() {
        return no_fit(alloc);
    }
    one(alloc, value_at_corner(alloc, p, index)?)
}

// The value of the only multilinear polynomial with this table.
fn only<F: Numbered, E: MultilinearExtension<F>>(alloc: Global, p: &E, point: &str) -> Answer {
    let point = elements(alloc, point)?;
    if point.len() != p.num_vars() {
        return no_fit(alloc);
    }
    one(alloc, only_multilinear(alloc, p, &point)?)
}

// The value at the whole point, and that with the first variables bound.
fn bound<F: Numbered, E: MultilinearExtension<F>>(
    alloc: Global,
    p: &E,
    first: &str,
    others: &str,
) -> Answer {
    let first = elements(alloc, first)?;
    let others = elements(alloc, others)?;
    if first.len() > p.num_vars() || others.len() != p.num_vars() - first.len() {
        return no_fit(alloc);
    }
    let (at_once, bound) = values_with_bound_variables(alloc, p, &first, &others)?;
    Ok(format!(in alloc; "{at_once},{bound}")?)
}

// The value at the exchanged point, and that of the exchanged table.
fn exchanged<F: Numbered, E: MultilinearExtension<F>>(
    alloc: Global,
    p: &E,
    by: Exchange,
    point: &str,
) -> Answer {
    let point = elements(alloc, point)?;
    if !p.relabel_fits(by.first, by.second, by.count) || point.len() != p.num_vars() {
        return no_fit(alloc);
    }
    let (by_items, by_variables) = values_with_exchanged_variables(alloc, p, by, &point)?;
    Ok(format!(in alloc; "{by_items},{by_variables}")?)
}
