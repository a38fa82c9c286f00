//! Small callers, as a user of the crates writes them: a transform and back, values on a coset, a transform
//! in parts, an interpolation, the convolution of two lists, a combination of two polynomials, openings,
//! exact costs, the first round of a sum-check, what chooses a value of a table, values that are lost and
//! restored, a wrong one that is refused, a polynomial in a file, one error for a program, the values of a
//! sparse polynomial, fields, an extension and a module of one's own, secrets in shares, whole sum-checks,
//! by a transcript too, calls by words alone, and bytes in pieces. The program prints
//! what each gives.
#![tactic(auto)]

mod accepted;
mod combination;
mod convolution;
mod coset;
mod cost;
mod curve25519;
mod errors;
mod field;
mod holders;
mod in_parts;
mod interpolation;
mod kept;
mod large_field;
mod module;
mod one_pass_opening;
mod opening;
mod own_extension;
mod protocols;
mod row_bytes;
mod row_sum_check;
mod rows;
mod saving;
mod selector;
mod shared_sum;
mod sharing;
mod sparse;
mod sum_check;
mod sum_check_whole;
mod there_and_back;
mod transcript;
mod word_sums;
mod words;

use ark_base::{FftField, Field, PolyError, PrimeField, PrimeModulus, Work};
use ark_fields::{BabyBear, F433, F65537};
use ark_poly::univariate::DensePolynomial;
use ark_poly::{
    DenseMultilinearExtension, DenseUVPolynomial, EvaluationDomain, MixedRadixEvaluationDomain,
    MultilinearExtension, Radix2EvaluationDomain,
};
use combination::combination;
use convolution::convolution;
use coset::values_on_coset;
use cost::{over_sixteen_and_back, restored_of_eighteen};
use curve25519::Curve25519Coordinate;
use errors::{CallError, value_of_saved};
use field::{F97, quotient};
use holders::{lost_and_restored, message_restored, restored_if_right};
use in_parts::sixteen_in_parts;
use interpolation::interpolated_value;
use kept::from_last_pieces;
use large_field::{F18446742974197923841, size_for_a_hundred_million};
use module::{Point, points_of_curve};
use opening::opening;
use own_extension::{F433Squared, value_in_extension};
use protocols::print_protocols;
use rows::print_rows;
use rs_code::{Code, RsError};
use saving::{load, save, saved_and_loaded};
use selector::selector;
use shards_format::StripeCode;
use shards_lib::FileCode;
use sparse::values_of_terms;
use std::alloc::Global;
use std::fs::{self, File, Files};
use std::io::{Print, Write};
use sum_check::{first_round, last_value, next_claim};
use there_and_back::there_and_back;
use word_sums::print_word_sums;
use words::{transformed_by_parts, values_between};

fn main(rt: HostRuntime) -> anyhow::Result<()> {
    let alloc = rt.alloc();
    let back = there_and_back(alloc, &[1, 2, 3].map(F65537::from))?;
    print_list(&rt, alloc, "there and back", &back)?;
    let others = on_coset(alloc, F97::from(5), &[10, 20, 30, 40].map(F97::from))?;
    print_list(&rt, alloc, "values on a coset", &others)?;
    let parts = sixteen_in_parts(alloc)?;
    print_list(&rt, alloc, "four rows of a transform in parts", &parts)?;
    let secret = at_zero(alloc, F97::from(5), &others)?;
    print_list(&rt, alloc, "the value at zero from these", &[secret])?;
    let both = convolution(
        alloc,
        &[1, 2, 3].map(F65537::from),
        &[4, 5].map(F65537::from),
    )?;
    print_list(&rt, alloc, "convolution", &both)?;
    print_polynomials(&rt, alloc)?;
    let items = over_sixteen(alloc, [1, 2, 3, 4].map(F65537::from))?;
    print_list(&rt, alloc, "over sixteen elements and back", &items)?;
    let word = three_of_eighteen(alloc, [1, 137, 150].map(F433::from))?;
    print_list(&rt, alloc, "eighteen values from three of them", &word)?;
    let checked = round(
        alloc,
        [1, 2, 3, 4].map(F65537::from),
        [5, 7].map(F65537::from),
    )?;
    print_list(
        &rt,
        alloc,
        "first round of a sum-check, the next claim, and the last value",
        &checked,
    )?;
    let counts = counts_at(alloc, [2, 3].map(F65537::from))?;
    print_list(
        &rt,
        alloc,
        "what each of four values counts at (2, 3)",
        &counts,
    )?;
    print_held(&rt, alloc)?;
    print_saved(&rt, alloc)?;
    print_fields(&rt, alloc)?;
    let coeffs = [(1, 2), (3, 4), (5, 6)].map(|(x, y)| Point {
        x: F433::from(x),
        y: F433::from(y),
    });
    print_points(&rt, &curve(alloc, &coeffs)?)?;
    print_protocols(&rt, alloc)?;
    print_rows(&rt, alloc)?;
    let mut squares = [0, 0];
    values_between::<BabyBear>(alloc, &[1, 2, 3], &[1, 4, 9], &[10, 100], &mut squares)?;
    println!(rt; "squares at 10 and 100 from those at 1, 2 and 3: {squares:?}")?;
    let mut numbers = [1, 2, 3, 4, 5, 6, 7, 8];
    transformed_by_parts::<BabyBear>(alloc, &mut numbers, 1, 2, &[1])?;
    println!(rt; "two rows of a transform over words: {numbers:?}")?;
    print_word_sums(&rt, alloc)?;
    print_kept::<FileCode, _>(&rt, alloc)
}

// Bytes that were kept in five pieces, of which three give them.
fn print_kept<C: StripeCode, R: Print>(rt: &R, alloc: Global) -> anyhow::Result<()> {
    if let Some(code) = C::new(3, 5) {
        let bytes = from_last_pieces(alloc, &code, b"kept".as_slice())?;
        let text = String::from_utf8_lossy(alloc, &bytes)?;
        println!(rt; "bytes from the last three of five pieces: {text}")?;
    }
    Ok(())
}

// The values over the coset with this offset, for values over the domain with as many elements.
fn on_coset<F: FftField>(alloc: Global, offset: F, values: &[F]) -> Result<Vec<F>, PolyError> {
    let domain = Radix2EvaluationDomain::new(values.len()).ok_or(PolyError::NoDomain)?;
    if domain.size() != values.len() {
        return Err(PolyError::NoDomain);
    }
    values_on_coset(alloc, &domain, offset, values)
}

// The value at zero of the polynomial with these values over the coset with this offset.
fn at_zero<F: FftField>(alloc: Global, offset: F, values: &[F]) -> Result<F, PolyError> {
    let coset = Radix2EvaluationDomain::new_coset(values.len(), offset).ok_or(PolyError::NoDomain)?;
    if coset.size() != values.len() {
        return Err(PolyError::NoDomain);
    }
    interpolated_value(alloc, coset, Vec::from_slice(alloc, values)?, F::zero())
}

// Twice the first polynomial and three times the second one, by their coefficients.
fn twice_and_thrice<F: Field>(alloc: Global, left: &[F], right: &[F]) -> Result<Vec<F>, PolyError> {
    let left = DensePolynomial::from_coefficients_slice(alloc, left)?;
    let right = DensePolynomial::from_coefficients_slice(alloc, right)?;
    let both = combination(alloc, F::from(2), &left, F::from(3), &right)?;
    Ok(Vec::from_slice(alloc, both.coeffs())?)
}

// The value at a point, and the coefficients of the quotient that shows it.
fn opened_at<F: Field>(alloc: Global, coeffs: &[F], point: F) -> Result<Vec<F>, PolyError> {
    let polynomial = DensePolynomial::from_coefficients_slice(alloc, coeffs)?;
    let (value, quotient) = opening(alloc, &polynomial, point)?;
    let mut opened = Vec::new(alloc);
    opened.push(value)?;
    opened.extend_from_slice(quotient.coeffs())?;
    Ok(opened)
}

// Four items over sixteen elements, and back.
fn over_sixteen<F: FftField>(alloc: Global, items: [F; 4]) -> Result<Vec<F>, PolyError> {
    let [first, second, third, fourth] = items;
    let mut items = vec![in alloc; first, second, third, fourth]?;
    let domain = Radix2EvaluationDomain::new(16).ok_or(PolyError::NoDomain)?;
    if domain.size() != 16 {
        return Err(PolyError::NoDomain);
    }
    over_sixteen_and_back(alloc, &domain, &mut items, &mut Work::new())?;
    Ok(items)
}

// The codeword over 433 whose first three values are given.
fn three_of_eighteen(alloc: Global, given: [F433; 3]) -> Result<Vec<F433>, RsError> {
    let mut word = [None; 18];
    let [first, second, third] = given;
    word[0] = Some(first);
    word[1] = Some(second);
    word[2] = Some(third);
    restored_of_eighteen(alloc, &word, &mut Work::new())
}

// Of a table of two variables, the two numbers of the first round, the next claim, and the value at the drawn point.
fn round<F: Field>(alloc: Global, values: [F; 4], drawn: [F; 2]) -> Result<[F; 4], PolyError> {
    let table = DenseMultilinearExtension::from_evaluations_slice(alloc, 2, &values)?;
    let [first, second] = drawn;
    let (low, high) = first_round(alloc, &table)?;
    let claim = next_claim(low, high, first);
    let point = vec![in alloc; first, second]?;
    let last = last_value(alloc, &table, &point)?;
    Ok([low, high, claim, last])
}

// How much each value of a table of two variables counts at a point.
fn counts_at<F: Field>(alloc: Global, point: [F; 2]) -> Result<Vec<F>, PolyError> {
    let [first, second] = point;
    let point = vec![in alloc; first, second]?;
    let mut counts = Vec::with_capacity(alloc, 4)?;
    for index in 0..4 {
        counts.push(selector(alloc, index, &point)?)?;
    }
    Ok(counts)
}

// The points of the curve over a mixed domain.
fn curve<F: FftField>(alloc: Global, coeffs: &[Point<F>]) -> Result<Vec<Point<F>>, PolyError> {
    let domain = MixedRadixEvaluationDomain::new(coeffs.len()).ok_or(PolyError::NoDomain)?;
    points_of_curve(alloc, &domain, coeffs)
}

fn print_list<M: PrimeModulus>(
    rt: &impl Print,
    alloc: Global,
    name: &str,
    elements: &[PrimeField<M>],
) -> anyhow::Result<()> {
    let numbers: Vec<u64> = elements
        .iter()
        .map(|element| element.value())
        .collect(alloc)?;
    println!(rt; "{name}: {numbers:?}")?;
    Ok(())
}

fn print_polynomials(rt: &impl Print, alloc: Global) -> anyhow::Result<()> {
    let both = twice_and_thrice(alloc, &[1, 2].map(F97::from), &[10, 20, 30].map(F97::from))?;
    print_list(
        rt,
        alloc,
        "twice one polynomial and three times another",
        &both,
    )?;
    let opened = opened_at(alloc, &[1, 2, 3].map(F97::from), F97::from(2))?;
    print_list(
        rt,
        alloc,
        "the value at 2, and the quotient by x - 2",
        &opened,
    )
}

// What comes back of values that are lost.
fn print_held<R: Print>(rt: &R, alloc: Global) -> anyhow::Result<()> {
    let message = [1, 2, 3].map(F65537::from);
    let values = held(alloc, &message)?;
    print_list(rt, alloc, "of eight values, five of them lost", &values)?;
    let items = held_as_they_are(alloc, &message)?;
    print_list(
        rt,
        alloc,
        "of eight values, the first three and two more lost",
        &items,
    )?;
    let right = with_sixth(alloc, &message, F65537::from(56578))?;
    print_list(rt, alloc, "of eight values, all of them right", &right)?;
    if let Err(refused) = with_sixth(alloc, &message, F65537::from(0)) {
        println!(rt; "of eight values, one of them wrong: {refused}")?;
    }
    Ok(())
}

// The message's eight values, of which three are left.
fn held<F: FftField>(alloc: Global, message: &[F]) -> anyhow::Result<Vec<F>> {
    let code = Code::new(message.len(), 8).ok_or(PolyError::NoDomain)?;
    let lost = [true, false, true, true, false, false, true, true];
    Ok(lost_and_restored(alloc, &code, message, &lost)?)
}

// The message from eight values that begin with it, of which the last three are left.
fn held_as_they_are<F: FftField>(alloc: Global, message: &[F]) -> anyhow::Result<Vec<F>> {
    let code = Code::new(message.len(), 8).ok_or(PolyError::NoDomain)?;
    let lost = [true, true, true, true, true, false, false, false];
    Ok(message_restored(alloc, &code, message, &lost)?)
}

// What comes back of the message's eight values where the sixth one is this.
fn with_sixth<F: FftField>(alloc: Global, message: &[F], sixth: F) -> anyhow::Result<Vec<F>> {
    let code = Code::new(message.len(), 8).ok_or(PolyError::NoDomain)?;
    let mut word = Vec::with_capacity(alloc, 8)?;
    for value in &code.encode(alloc, message)? {
        word.push(Some(*value))?;
    }
    if let Some(value) = word.get_mut(5) {
        *value = Some(sixth);
    }
    Ok(restored_if_right(alloc, &code, &word, 5)?)
}

// The value at a point of the polynomial with these coefficients, from its bytes.
fn from_bytes<F: Field>(alloc: Global, coeffs: &[F], point: F) -> Result<F, CallError> {
    let polynomial = DensePolynomial::from_coefficients_slice(alloc, coeffs)?;
    let bytes = save(&polynomial, Vec::new(alloc))?;
    value_of_saved(alloc, &bytes, point)
}

// The polynomial that is loaded from a file in which this one was saved.
fn through_file<F: Field>(
    rt: &impl Files,
    alloc: Global,
    polynomial: &DensePolynomial<F>,
) -> anyhow::Result<DensePolynomial<F>> {
    let name = "saved_polynomial";
    save(polynomial, File::create(rt, name)?)?.flush()?;
    let (loaded, _file) = load(alloc, File::open(rt, name)?)?;
    fs::remove_file(rt, name)?;
    Ok(loaded)
}

fn print_saved(rt: &(impl Print + Files), alloc: Global) -> anyhow::Result<()> {
    let polynomial = DensePolynomial::from_coefficients_slice(alloc, &[1, 2, 3].map(F65537::from))?;
    let loaded = through_file(rt, alloc, &saved_and_loaded(alloc, &polynomial)?)?;
    print_list(rt, alloc, "saved and loaded", loaded.coeffs())?;
    let value = from_bytes(alloc, &[1, 2, 3].map(F65537::from), F65537::from(2))?;
    print_list(rt, alloc, "the value at 2 of what was saved", &[value])?;
    if let Err(refused) = value_of_saved(alloc, &[1], F65537::from(2)) {
        println!(rt; "of one byte: {refused}")?;
    }
    Ok(())
}

// The values of the polynomial with these terms over four elements.
fn over_four<F: FftField>(alloc: Global, terms: &[(usize, F)]) -> Result<Vec<F>, PolyError> {
    let domain = Radix2EvaluationDomain::new(4).ok_or(PolyError::NoDomain)?;
    let values = values_of_terms(alloc, domain, terms)?;
    Ok(Vec::from_slice(alloc, values.evals())?)
}

fn print_fields(rt: &impl Print, alloc: Global) -> anyhow::Result<()> {
    let values = over_four(alloc, &[(0, F97::from(1)), (1001, F97::from(2))])?;
    print_list(rt, alloc, "1 + 2 x^1001 over four elements", &values)?;
    let large = [u64::MAX, 1 << 63, 3].map(F18446742974197923841::from);
    let back = there_and_back(alloc, &large)?;
    print_list(rt, alloc, "there and back modulo 2^64 - 2^40 + 1", &back)?;
    if let Some(third) = quotient(F97::from(1), F97::from(3)) {
        println!(rt; "a third modulo 97: {}", third.value())?;
    }
    let [four, five] = [4, 5].map(Curve25519Coordinate::from);
    if let Some(y) = quotient(four, five) {
        println!(rt; "four fifths modulo 2^255 - 19: {y:?}")?;
    }
    let root = F433Squared::new(F433::from(0), F433::from(1));
    let value = value_in_extension(&[1, 2, 3].map(F433::from), root);
    let coefficients = [value.c0, value.c1];
    print_list(
        rt,
        alloc,
        "1 + 2 x + 3 x^2 at x, a square root of 5 modulo 433",
        &coefficients,
    )?;
    if let Some(size) = size_for_a_hundred_million() {
        println!(rt; "room for a hundred million coefficients: {size}")?;
    }
    Ok(())
}

fn print_points<M: PrimeModulus>(
    rt: &impl Print,
    points: &[Point<PrimeField<M>>],
) -> anyhow::Result<()> {
    for point in points {
        println!(rt;
            "point of the curve: ({}, {})",
            point.x.value(),
            point.y.value()
        )?;
    }
    Ok(())
}
