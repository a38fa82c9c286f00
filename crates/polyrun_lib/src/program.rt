//! The answer to the words of a command line.

ghost use Rattle.std.specs.Prelude.{◌≡◌, ◌≢◌, ◌⊎◌, ◌%◌, ◌∷◌, ◌++◌, ℕ, List, [], map, IfOk, IfErr, IfSome, IfNone};
ghost use Rattle.std.specs.Prelude.{IsOkUnless};
ghost use Rattle.std.specs.Prelude.{string_bytes};
ghost use Rattle.ark_math.specs.Outcome.{IsOkUnlessEither};
ghost use Rattle.ark_math.specs.Domain.{HasNoSize, IsDomain};
ghost use Rattle.ark_math.specs.Univariate.{of_list, nothing, IsQuotient};
ghost use Rattle.ark_base.specs.Numerals.{IsDecimal};
ghost use Rattle.polyrun_lib.specs.Words.{IsList, SpellsNumber, SpellsList};
ghost use Rattle.polyrun_lib.specs.Commands.{Command as Asked, Spells, IsSpelled};
ghost use Rattle.polyrun_lib.specs.Commands.{transform_of, product_of, division_of, value_of, extension_of, size_for};
ghost use Rattle.polyrun_lib.specs.Commands.{SpellExtended};
ghost use Rattle.polyrun_lib.specs.Lines.{line_of};
ghost use Rattle.ark_numbers.specs.Fields.{Known, known_by};
ghost use Rattle.ark_numbers.specs.Answers.{coefficients};
ghost use Rattle.polyrun_lib.specs.Answer.{IsCommand, HasAtMostOne, MayAnswer};
ghost use Rattle.polyrun_lib.specs.Written.{writer, IsWritten, IsOneWritten};
ghost use Rattle.polyrun_lib.specs.Check.{IsAnswer, MayWrite};
ghost use Rattle.polyrun_lib.specs.Outcome.{IsOutcome, IsOutcomeOf};

use crate::command::{Command, Direction, parse};
use crate::laws::one_answer;
use crate::lines::{line, number_line, refusal_line, single_line, usage_line};
use crate::rows::check_rows;
use crate::vectors::vectors_of;
use crate::words::number;
use ark_base::{FftField, Field, PolyError, PrimeNumbers, Sink, Work};
use ark_fields::{BabyBear, F5, F433, F65537, Goldilocks, KoalaBear};
use ark_poly::univariate::{DenseOrSparsePolynomial, DensePolynomial};
use ark_poly::{
    DenseMultilinearExtension, DenseUVPolynomial, EvaluationDomain, GeneralEvaluationDomain,
    Polynomial,
};
use ark_prime256::{Bls12_381Scalar, Bn254Scalar};
use std::alloc::{AllocError, Global};

// The domains that the transforms are over.
type Domain<F> = GeneralEvaluationDomain<F>;

/// Writes the answer to the words, and gives its status: 0; 1 where the line reports an error; 2 where the
/// words are no command; and 3 where the writer failed, after a beginning of the text. An answer's memory is
/// taken before its first byte is written, and that of `vectors` before each line.
///
/// The words are a field and a command. The field is `5`, `433` or `65537`, `babybear`, `koalabear` or
/// `goldilocks`, or that of the scalars of a curve, `bls12-381` or `bn254`. Numbers may have any length. The
/// command is one of these:
///
/// - `fft K H LIST` and `ifft K H LIST`, the transform or its inverse over the domain of size `K` or the next
///   larger, with the offset `H`: of a power of two where there is one, and otherwise of a mixed size,
/// - `mul LIST LIST`, the product of the polynomials with these coefficients, by transforms over that domain
///   for the product's length,
/// - `div LIST LIST`, the quotient and the remainder of the first polynomial by the second, a line each,
/// - `eval LIST X`, the value at `X` of the polynomial with these coefficients,
/// - `mle N LIST POINT`, the value at `POINT` of the multilinear extension of the `2^N` items of `LIST`,
/// - `size K`, the size of that domain,
/// - `vectors`, what `check` writes for the field's own rows, with its status.
pub fn run<W: Sink>(alloc: Global, words: &[String], out: &mut W) -> u8
    ensures written { IsOneWritten (MayWrite (map string_bytes words.now))
        (writer W.Sink out.old) (writer W.Sink out.new) result }

    // There is no second answer.
    ensures only { HasAtMostOne (IsAnswer (map string_bytes words.now)) }
{
    one_answer(words);
    match vectors_of(words) {
        Some((field, rows)) => check_rows(alloc, field, rows, out),
        None => run_command(alloc, words, out),
    }
}

// Writes the answer to words that don't ask for `vectors`, and gives its status.
fn run_command<W: Sink>(alloc: Global, words: &[String], out: &mut W) -> u8
    ensures { IsOneWritten (MayAnswer (map string_bytes words.now))
        (writer W.Sink out.old) (writer W.Sink out.new) result }
{
    match answer(alloc, words) {
        Some(Ok(text)) => write(out, text.as_str(), 0),
        Some(Err(error)) => write(out, refusal_line(error), 1),
        None => write(out, usage_line(), 2),
    }
}

/// Writes a text, and gives its status, or 3 where the writer failed.
pub fn write<W: Sink>(out: &mut W, text: &str, status: u8) -> u8
    ensures { IsWritten (writer W.Sink out.old) (writer W.Sink out.new) text.now status result }
{
    match out.put(text.as_bytes()) {
        Ok(()) => status,
        Err(_) => 3,
    }
}

// The text of the answer or the error in its place, and `None` where the words are no command.
fn answer(alloc: Global, words: &[String]) -> Option<Result<String, PolyError>>
    ensures some { IfSome result (IsOutcomeOf (map string_bytes words.now)) }
    ensures none { IfNone result ((f : Known) (c : Asked) → ¬ IsCommand (map string_bytes words.now) f c) }
{
    let [field, words @ ..] = words else {
        return None;
    };
    answer_in(alloc, field.as_str(), words)
}

/// The text of the answer to a field and the words after it or the error in its place, and `None` where these
/// are no command.
pub fn answer_in(alloc: Global, field: &str, words: &[String]) -> Option<Result<String, PolyError>>
    ensures some { IfSome result (IsOutcomeOf (field.now ∷ map string_bytes words.now)) }
    ensures none { IfNone result ((f : Known) (c : Asked)
        → ¬ IsCommand (field.now ∷ map string_bytes words.now) f c) }
{
    let command = parse(words)?;
    match field {
        "5" => Some(answer_over::<F5>(alloc, command)),
        "433" => Some(answer_over::<F433>(alloc, command)),
        "65537" => Some(answer_over::<F65537>(alloc, command)),
        "babybear" => Some(answer_over::<BabyBear>(alloc, command)),
        "koalabear" => Some(answer_over::<KoalaBear>(alloc, command)),
        "goldilocks" => Some(answer_over::<Goldilocks>(alloc, command)),
        "bls12-381" => Some(answer_over::<Bls12_381Scalar>(alloc, command)),
        "bn254" => Some(answer_over::<Bn254Scalar>(alloc, command)),
        _ => None,
    }
}

// The answer to a command over one field.
fn answer_over<F: PrimeNumbers>(alloc: Global, command: Command) -> Result<String, PolyError>
    requires { IsSpelled command }
    ensures { (c : Asked) → Spells command.entry c → IsOutcome (known_by F.modulus F.adicity F.generator) c result }
{
    match command {
        Command::Transform {
            direction,
            size,
            offset,
            list,
        } => transform_line::<F>(alloc, direction, size, offset, list),
        Command::Mul { left, right } => product_line::<F>(alloc, left, right),
        Command::Div { left, right } => quotient_lines::<F>(alloc, left, right),
        Command::Eval { list, point } => value_line::<F>(alloc, list, point),
        Command::Mle {
            num_vars,
            list,
            point,
        } => extension_line::<F>(alloc, num_vars, list, point),
        Command::Size { num_coeffs } => size_line::<F>(alloc, num_coeffs),
    }
}

// The line of a transform or its inverse. Whether there is a domain is judged before memory is asked for.
fn transform_line<F: PrimeNumbers>(
    alloc: Global,
    direction: Direction,
    size: &str,
    offset: &str,
    list: &str,
) -> Result<String, PolyError>
    requires offset { SpellsNumber offset.now }
    requires list { SpellsList list.now }
    ensures { (k h : ℕ) (xs : List ℕ) → IsDecimal size.now k → IsDecimal offset.now h → IsList list.now xs
        → IsOutcome (known_by F.modulus F.adicity F.generator) (transform_of direction k h xs) result }
{
    let size = number(size).ok_or(PolyError::NoDomain)?;
    let domain: Domain<F> = coset(size, element(offset))?;
    let mut items = elements::<F>(alloc, list)?;
    // The counts are for contracts alone.
    let work = &mut Work::new();
    match direction {
        Direction::Forward => domain.fft_counted(alloc, &mut items, work)?,
        Direction::Inverse => domain.ifft_counted(alloc, &mut items, work)?,
    }
    element_line(alloc, &items)
}

// The line of a product.
fn product_line<F: PrimeNumbers>(
    alloc: Global,
    left: &str,
    right: &str,
) -> Result<String, PolyError>
    requires left { SpellsList left.now }
    requires right { SpellsList right.now }
    ensures { (xs ys : List ℕ) → IsList left.now xs → IsList right.now ys
        → IsOutcome (known_by F.modulus F.adicity F.generator) (product_of xs ys) result }
{
    let left = polynomial::<F>(alloc, left)?;
    let right = polynomial::<F>(alloc, right)?;
    let product = left.mul(alloc, &right)?;
    element_line(alloc, product.coeffs())
}

// The lines of a quotient and its remainder.
fn quotient_lines<F: PrimeNumbers>(
    alloc: Global,
    left: &str,
    right: &str,
) -> Result<String, PolyError>
    requires left { SpellsList left.now }
    requires right { SpellsList right.now }
    ensures { (xs ys : List ℕ) → IsList left.now xs → IsList right.now ys
        → IsOutcome (known_by F.modulus F.adicity F.generator) (division_of xs ys) result }
{
    let dividend = polynomial::<F>(alloc, left)?;
    let divisor = polynomial::<F>(alloc, right)?;
    let (quotient, remainder) = divided(alloc, &dividend, &divisor)?;
    two_lines(alloc, quotient.coeffs(), remainder.coeffs())
}

// The quotient and the remainder of a polynomial by another: both zero for zero, whatever the other is.
fn divided<F: Field>(
    alloc: Global,
    dividend: &DensePolynomial<F>,
    divisor: &DensePolynomial<F>,
) -> Result<(DensePolynomial<F>, DensePolynomial<F>), PolyError>
    ensures quotient { IfOk result (λ p.
        ((of_list F.field dividend.now ≡ nothing F.field)
        × (of_list F.field p.0 ≡ nothing F.field) × (of_list F.field p.1 ≡ nothing F.field))
        ⊎ IsQuotient F.field (of_list F.field dividend.now) (of_list F.field divisor.now)
        (of_list F.field p.0) (of_list F.field p.1)) }
    ensures zero { (result ≡ Err PolyError.ZeroDivisor)
        → (of_list F.field dividend.now ≢ nothing F.field) × (of_list F.field divisor.now ≡ nothing F.field) }
    ensures errors { IsOkUnlessEither result PolyError.Memory PolyError.ZeroDivisor }
{
    // By these neither has a zero at its end, and no list is so long that its degree is `usize::MAX`.
    dividend.coeffs();
    divisor.coeffs();
    let dividend = DenseOrSparsePolynomial::from(dividend);
    let divisor = DenseOrSparsePolynomial::from(divisor);
    let Some(pair) = dividend.divide_with_q_and_r(alloc, &divisor)? else {
        return Err(PolyError::ZeroDivisor);
    };
    Ok(pair)
}

// The line of a value.
fn value_line<F: PrimeNumbers>(alloc: Global, list: &str, point: &str) -> Result<String, PolyError>
    requires list { SpellsList list.now }
    requires point { SpellsNumber point.now }
    ensures { (xs : List ℕ) (x : ℕ) → IsList list.now xs → IsDecimal point.now x
        → IsOutcome (known_by F.modulus F.adicity F.generator) (value_of xs x) result }
{
    let polynomial = DensePolynomial::from_coefficients_vec(elements::<F>(alloc, list)?);
    let value = polynomial.evaluate(alloc, &element(point))?;
    value_text(alloc, value)
}

// The line of an extension's value.
fn extension_line<F: PrimeNumbers>(
    alloc: Global,
    num_vars: usize,
    list: &str,
    point: &str,
) -> Result<String, PolyError>
    requires { SpellExtended num_vars list.now point.now }
    ensures { (xs x : List ℕ) → IsList list.now xs → IsList point.now x
        → IsOutcome (known_by F.modulus F.adicity F.generator) (extension_of num_vars xs x) result }
{
    let evaluations = elements::<F>(alloc, list)?;
    let point = elements::<F>(alloc, point)?;
    let extension = DenseMultilinearExtension::from_evaluations_vec(num_vars, evaluations);
    let value = extension.evaluate(alloc, &point)?;
    value_text(alloc, value)
}

// The line of a size.
fn size_line<F: PrimeNumbers>(alloc: Global, num_coeffs: &str) -> Result<String, PolyError>
    ensures { (k : ℕ) → IsDecimal num_coeffs.now k
        → IsOutcome (known_by F.modulus F.adicity F.generator) (size_for k) result }
{
    let num_coeffs = number(num_coeffs).ok_or(PolyError::NoDomain)?;
    let size = Domain::<F>::compute_size_of_domain(num_coeffs as usize);
    let size = size.ok_or(PolyError::NoDomain)?;
    Ok(number_line(alloc, size as u64)?)
}

// The coset of the size that the type of domain takes for `size`.
fn coset<F: FftField, D: EvaluationDomain<F>>(size: u64, offset: F) -> Result<D, PolyError>
    ensures chosen { IfOk result (λ d. D.chooses size (D.domain d).kind (D.domain d).size) }
    ensures offset { IfOk result (λ d. (D.domain d).offset ≡ offset) }
    ensures lawful { IfOk result (λ d. IsDomain F.field F.adicity F.root (D.domain d)) }
    ensures cause { IfErr result (λ e. (offset ≡ F.field.zero) ⊎ HasNoSize D.chooses size) }
    ensures error { IsOkUnless result PolyError.NoDomain }
{
    D::new_coset(size as usize, offset).ok_or(PolyError::NoDomain)
}

// The polynomial with the elements of a list as its coefficients.
fn polynomial<F: PrimeNumbers>(alloc: Global, word: &str) -> Result<DensePolynomial<F>, AllocError>
    requires { SpellsList word.now }
    ensures { IfOk result (λ p. (xs : List ℕ) → IsList word.now xs →
        map F.numbering.number p ≡ coefficients (known_by F.modulus F.adicity F.generator) xs) }
{
    Ok(DensePolynomial::from_coefficients_vec(elements::<F>(alloc, word)?))
}

// The element of the number that a word spells.
fn element<F: PrimeNumbers>(word: &str) -> F
    requires { SpellsNumber word.now }
    ensures { (n : ℕ) → IsDecimal word.now n → F.numbering.number result ≡ n % F.modulus }
{
    F::from_decimal(word).unwrap()
}

// The elements of a list.
fn elements<F: PrimeNumbers>(alloc: Global, word: &str) -> Result<Vec<F>, AllocError>
    requires { SpellsList word.now }
    ensures { IfOk result (λ elements. (xs : List ℕ) → IsList word.now xs →
        map F.numbering.number elements.items ≡ map (λ x. x % F.modulus) xs) }
{
    let mut elements = Vec::new(alloc);
    'parts: for part in word.split(',') {
        // The empty word has one part, which is no number.
        if let Some(element) = F::from_decimal(part) {
            elements.push(element)?;
        }
    }
    Ok(elements)
}

// The elements' line.
fn element_line<F: PrimeNumbers>(alloc: Global, elements: &[F]) -> Result<String, PolyError>
    ensures text { IfOk result (λ text. string_bytes text ≡ line_of (map F.numbering.number elements.now)) }
    ensures memory { IsOkUnless result PolyError.Memory }
{
    Ok(line(alloc, elements)?)
}

// An element's line.
fn value_text<F: PrimeNumbers>(alloc: Global, value: F) -> Result<String, PolyError>
    ensures text { IfOk result (λ text. string_bytes text ≡ line_of (F.numbering.number value ∷ [])) }
    ensures memory { IsOkUnless result PolyError.Memory }
{
    Ok(single_line(alloc, value)?)
}

// The line of each, in this order.
fn two_lines<F: PrimeNumbers>(alloc: Global, first: &[F], second: &[F]) -> Result<String, PolyError>
    ensures text { IfOk result (λ text. string_bytes text
        ≡ line_of (map F.numbering.number first.now) ++ line_of (map F.numbering.number second.now)) }
    ensures memory { IsOkUnless result PolyError.Memory }
{
    let mut text = element_line(alloc, first)?;
    text.push_str(element_line(alloc, second)?.as_str())?;
    Ok(text)
}
