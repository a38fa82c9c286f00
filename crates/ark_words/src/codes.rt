//! Reed-Solomon codes: codewords of messages, and words of which places are lost.

ghost use Rattle.std.specs.Prelude.{◌≡◌, ◌↔◌, ℕ, ◌*◌, ◌/◌, ◌%◌, ◌<◌, ◌≤◌, map, length, OnOk, OnErr, IfOk, IfErr};
ghost use Rattle.std.specs.Prelude.{All, IfSome, IsNone};
ghost use Rattle.ark_math.specs.Domain.{Kind, IsDomain, IsSize};
ghost use Rattle.ark_univariate.specs.Domains.{general_domain};
ghost use Rattle.ark_words.specs.Codes.{FitCode, HasCodeFor, IsEncodable, IsEncoded, IsExtendedToCodeword};
ghost use Rattle.ark_words.specs.Codes.{FitWords, HasCode, HasCodeword, HaveCodewords, IsRestored};
ghost use Rattle.ark_words.specs.Codes.{AreRestored, left_count, word_at};
ghost use Rattle.ark_words.specs.Codes.{FitMessages, IsFound, AreFound, message_size};
ghost use Rattle.ark_words.specs.Decoders.{IsDecoderFor, marks};
ghost use Rattle.ark_words.specs.Faults.{IsFault, IsOfDomains, IsWordFault};
ghost use Rattle.ark_numbers.specs.Fields.{known_by};
ghost use Rattle.ark_words.specs.Numbers.{numbers, AreReduced};

use crate::domains::exact_domain;
use crate::element::WordElement;
use crate::error::WordsError;
use crate::lists::{elements, put, refusal};
use ark_univariate::domain::{EvaluationDomain, GeneralEvaluationDomain};
use rs_code::{Code, Decoder, RsError};
use std::alloc::{AllocError, Global};

/// Writes the codeword of a message of `k` numbers: where the word has room for `n` numbers, the values of the
/// polynomial with these coefficients, the lowest first, at the `n` elements of the domain of exactly that size
/// with offset 1. It takes memory for `k` elements and for `n`, and what `fft` of the domain takes.
///
/// The errors are judged in this order: `Length` where message or word aren't whole elements, or `k` is none of
/// `1 ..= n`; `NotReduced` where a number of the message isn't below the modulus; `NoDomain` where no domain of
/// the field has `n` elements; `Memory` where none of these holds.
pub fn encode<F: WordElement>(
    alloc: Global,
    message: &[u64],
    word: &mut [u64],
) -> Result<(), WordsError>
    ensures codeword { OnOk result (IsEncoded F.spelled message.now word.new) }
    ensures kept { OnErr result (word.new ≡ word.old) }
    ensures taken { OnOk result (IsEncodable F.spelled message.now word.old) }
    ensures length { (result ≡ Err WordsError.Length) ↔ (¬ FitCode F.spelled message.now word.old) }
    ensures not_reduced { (result ≡ Err WordsError.NotReduced)
        ↔ (FitCode F.spelled message.now word.old × (¬ AreReduced F.spelled message.now)) }
    ensures no_domain { (result ≡ Err WordsError.NoDomain)
        ↔ (FitCode F.spelled message.now word.old × AreReduced F.spelled message.now
        × (¬ HasCodeFor F.spelled word.old)) }
    ensures no_other { IfErr result IsOfDomains }
{
    let (domain, items) = judged::<F>(alloc, message, word)?;
    let Ok(codeword) = domain.fft(alloc, &items) else {
        return Err(WordsError::Memory);
    };
    put(word, &codeword);
    Ok(())
}

/// Writes the codeword that begins with a message of `k` numbers, where the word has room for `n`: the code
/// in systematic form. There is exactly one such codeword. It takes memory for `k` elements, and what
/// `encode_systematic` of `rs_code` takes.
///
/// The errors are those of `encode`, in its order.
pub fn encode_systematic<F: WordElement>(
    alloc: Global,
    message: &[u64],
    word: &mut [u64],
) -> Result<(), WordsError>
    ensures codeword { OnOk result (IsExtendedToCodeword F.spelled message.now word.new) }
    ensures kept { OnErr result (word.new ≡ word.old) }
    ensures taken { OnOk result (IsEncodable F.spelled message.now word.old) }
    ensures length { (result ≡ Err WordsError.Length) ↔ (¬ FitCode F.spelled message.now word.old) }
    ensures not_reduced { (result ≡ Err WordsError.NotReduced)
        ↔ (FitCode F.spelled message.now word.old × (¬ AreReduced F.spelled message.now)) }
    ensures no_domain { (result ≡ Err WordsError.NoDomain)
        ↔ (FitCode F.spelled message.now word.old × AreReduced F.spelled message.now
        × (¬ HasCodeFor F.spelled word.old)) }
    ensures no_other { IfErr result IsOfDomains }
{
    let (domain, items) = judged::<F>(alloc, message, word)?;
    let k = message.len() / F::WIDTH;
    let Ok(extended) = Code::<F>::over(domain, k).encode_systematic(alloc, &items) else {
        return Err(WordsError::Memory);
    };
    put(word, &extended);
    Ok(())
}

// The domain of the word and the message's elements, or the first fault.
fn judged<F: WordElement>(
    alloc: Global,
    message: &[u64],
    word: &[u64],
) -> Result<(GeneralEvaluationDomain<F>, Vec<F>), WordsError>
    ensures size { IfOk result (λ p. (general_domain p.0).size ≡ length word.now / F.WIDTH) }
    ensures offset { IfOk result (λ p. (general_domain p.0).offset ≡ F.field.one) }
    ensures lawful { IfOk result (λ p. IsDomain F.field F.adicity F.root (general_domain p.0)) }
    ensures numbers { IfOk result (λ p. map F.numbering.number p.1.items ≡ numbers F.WIDTH message.now) }
    ensures taken { OnOk result (IsEncodable F.spelled message.now word.now) }
    ensures fault { IfErr result (IsFault (FitCode F.spelled message.now word.now)
        (AreReduced F.spelled message.now) (HasCodeFor F.spelled word.now)) }
{
    let width = F::WIDTH;
    if message.len() % width != 0
        || word.len() % width != 0
        || message.is_empty()
        || word.len() < message.len()
    {
        return Err(WordsError::Length);
    }
    let Some(domain) = exact_domain(word.len() / width, F::one()) else {
        return Err(refusal::<F>(message, WordsError::NoDomain));
    };
    Ok((domain, elements(alloc, message)?))
}

/// Puts in place of each word the only codeword that has what is left of it. The words have `n` numbers each
/// and stand one after another, one or more; `erased` has `n` bytes, and a place of which the byte isn't 0 is
/// lost in every word. A codeword is that of a message of `k` numbers. What is at a lost place counts for
/// nothing, but is a number below the modulus. One decoder serves all words: the call takes memory for them
/// twice, and what `decoder` and `restore` of `rs_code` take.
///
/// The errors are judged in this order: `Length` where the words aren't whole elements, are none, or their
/// number no multiple of `n`, or where `k` is none of `1 ..= n`; `NotReduced` where a number isn't below the
/// modulus; `NoDomain` where no domain of the field has `n` elements; `TooFew` where fewer than `k` places
/// are left; `NoCodeword` where no codeword has what is left of some word. `Memory` comes only where none of
/// the first four does.
pub fn restore<F: WordElement>(
    alloc: Global,
    words: &mut [u64],
    erased: &[u8],
    k: u64,
) -> Result<(), WordsError>
    ensures restored { OnOk result (AreRestored F.spelled words.old erased.now k words.new) }
    ensures kept { OnErr result (words.new ≡ words.old) }
    ensures taken { OnOk result (FitWords F.spelled words.old erased.now k × AreReduced F.spelled words.old
        × HasCode F.spelled (length erased.now) × (k ≤ left_count erased.now)) }
    ensures fault { IfErr result (IsWordFault (FitWords F.spelled words.old erased.now k)
        (AreReduced F.spelled words.old) (HasCode F.spelled (length erased.now)) (k ≤ left_count erased.now)
        (HaveCodewords F.spelled words.old erased.now k)) }
{
    let width = F::WIDTH;
    if words.len() % width != 0
        || words.is_empty()
        || k == 0
        || k > erased.len() as u64
        || words.len() / width % erased.len() != 0
    {
        return Err(WordsError::Length);
    }
    let (decoder, items) = prepared::<F>(alloc, words, erased, k)?;
    match restore_each(alloc, &decoder, erased, &items) {
        Ok(restored) => {
            put(words, &restored);
            Ok(())
        }
        Err(RsError::NoCodeword) => Err(WordsError::NoCodeword),
        Err(_) => Err(WordsError::Memory),
    }
}

/// Writes the messages of words, of `k` numbers each, one after another: each is the only one whose codeword
/// has what is left of its word. The words have `n` numbers each and stand one after another, one or more;
/// `erased` has `n` bytes, and a place of which the byte isn't 0 is lost in every word. What is at a lost
/// place counts for nothing, but is a number below the modulus. `k` is how many numbers `messages` has room
/// for, over how many words there are. One decoder serves all words: the call takes memory for words and
/// messages, and what `decoder` and `message` of `rs_code` take.
///
/// The errors are judged in this order: `Length` where words or messages aren't whole elements, the words are
/// none, or their number no multiple of `n`, or that of the messages none of the words', or where `k` is none
/// of `1 ..= n`; `NotReduced` where a number of the words isn't below the modulus; `NoDomain` where no domain
/// of the field has `n` elements; `TooFew` where fewer than `k` places are left; `NoCodeword` where no
/// codeword has what is left of some word. `Memory` comes only where none of the first four does.
pub fn message<F: WordElement>(
    alloc: Global,
    words: &[u64],
    erased: &[u8],
    messages: &mut [u64],
) -> Result<(), WordsError>
    ensures found { OnOk result (AreFound F.spelled words.now erased.now
        (message_size F.spelled words.now erased.now messages.old) messages.new) }
    ensures kept { OnErr result (messages.new ≡ messages.old) }
    ensures taken { OnOk result (FitMessages F.spelled words.now erased.now messages.old
        × AreReduced F.spelled words.now × HasCode F.spelled (length erased.now)
        × (message_size F.spelled words.now erased.now messages.old ≤ left_count erased.now)) }
    ensures fault { IfErr result (IsWordFault (FitMessages F.spelled words.now erased.now messages.old)
        (AreReduced F.spelled words.now) (HasCode F.spelled (length erased.now))
        (message_size F.spelled words.now erased.now messages.old ≤ left_count erased.now)
        (HaveCodewords F.spelled words.now erased.now
        (message_size F.spelled words.now erased.now messages.old))) }
{
    let Some(k) = size_of_messages::<F>(words, erased, messages) else {
        return Err(WordsError::Length);
    };
    let (decoder, items) = prepared::<F>(alloc, words, erased, k)?;
    match message_each(alloc, &decoder, erased, &items) {
        Ok(found) => {
            put(messages, &found);
            Ok(())
        }
        Err(RsError::NoCodeword) => Err(WordsError::NoCodeword),
        Err(_) => Err(WordsError::Memory),
    }
}

// How many numbers each message of words has, where the lengths fit.
fn size_of_messages<F: WordElement>(words: &[u64], erased: &[u8], messages: &[u64]) -> Option<u64>
    ensures size { IfSome result (λ k. k ≡ message_size F.spelled words.now erased.now messages.now) }
    ensures fit { IfSome result (λ k. FitMessages F.spelled words.now erased.now messages.now) }
    ensures none { IsNone result → (¬ FitMessages F.spelled words.now erased.now messages.now) }
{
    let width = F::WIDTH;
    if words.len() % width != 0
        || messages.len() % width != 0
        || erased.is_empty()
        || words.len() / width % erased.len() != 0
    {
        return None;
    }
    let count = words.len() / width / erased.len();
    if count == 0 || messages.len() / width % count != 0 {
        return None;
    }
    let k = messages.len() / width / count;
    if k == 0 || k > erased.len() {
        return None;
    }
    Some(k as u64)
}

// The decoder of words and their elements, or the first fault but those of their lengths.
fn prepared<F: WordElement>(
    alloc: Global,
    words: &[u64],
    erased: &[u8],
    k: u64,
) -> Result<(Decoder<F>, Vec<F>), WordsError>
    requires least { 0 < k }
    requires most { k ≤ length erased.now }
    ensures decoder { IfOk result (λ p. IsDecoderFor F.field F.adicity F.root erased.now p.0) }
    ensures items { IfOk result (λ p. p.0.code.k ≡ k) }
    ensures numbers { IfOk result (λ p. map F.numbering.number p.1.items ≡ numbers F.WIDTH words.now) }
    ensures taken { OnOk result (((kind : Kind) × IsSize F.adicity kind (length erased.now))
        × (k ≤ left_count erased.now)) }
    ensures fault { IfErr result (IsWordFault (Unit {0}) (All (λ x. x < F.modulus) (numbers F.WIDTH words.now))
        ((kind : Kind) × IsSize F.adicity kind (length erased.now)) (k ≤ left_count erased.now) (Unit {0})) }
{
    let Some(domain) = exact_domain(erased.len(), F::one()) else {
        return Err(refusal::<F>(words, WordsError::NoDomain));
    };
    if (count_left(erased) as u64) < k {
        return Err(refusal::<F>(words, WordsError::TooFew));
    }
    let items = elements(alloc, words)?;
    let Ok(marks) = lost_places(alloc, erased) else {
        return Err(WordsError::Memory);
    };
    let Ok(decoder) = Code::<F>::over(domain, k as usize).decoder(alloc, &marks) else {
        return Err(WordsError::Memory);
    };
    Ok((decoder, items))
}

// How many places are left.
fn count_left(erased: &[u8]) -> usize
    ensures { result ≡ left_count erased.now }
{
    let mut count = 0;
    for i in 0..erased.len() {
        count += if erased[i] == 0 { 1 } else { 0 };
    }
    count
}

// Which places are lost.
fn lost_places(alloc: Global, erased: &[u8]) -> Result<Vec<bool>, AllocError>
    ensures { IfOk result (λ v. v.items ≡ marks erased.now) }
{
    erased.iter().map(|byte| *byte != 0).collect(alloc)
}

// The codewords of words, one after another.
fn restore_each<F: WordElement>(
    alloc: Global,
    decoder: &Decoder<F>,
    erased: &[u8],
    items: &[F],
) -> Result<Vec<F>, RsError>
    requires decoder { IsDecoderFor F.field F.adicity F.root erased.now decoder.now }
    requires some { 0 < length erased.now }
    requires whole { length items.now % length erased.now ≡ 0 }
    ensures len { IfOk result (λ r. length r.items ≡ length items.now) }
    ensures each { IfOk result (λ r. (j : ℕ) → j < length items.now / length erased.now
        → IsRestored (known_by F.modulus F.adicity F.generator) erased.now decoder.now.code.k
        (word_at (length erased.now) (map F.numbering.number items.now) j)
        (word_at (length erased.now) (map F.numbering.number r.items) j)) }
    ensures none { (result ≡ Err RsError.NoCodeword) → ((j : ℕ) → j < length items.now / length erased.now
        → HasCodeword (known_by F.modulus F.adicity F.generator) erased.now decoder.now.code.k
        (word_at (length erased.now) (map F.numbering.number items.now) j)) → ⊥ }
{
    let n = erased.len();
    let mut restored = Vec::with_capacity(alloc, items.len())?;
    for j in 0..items.len() / n {
        let codeword = decoder.restore(alloc, &items[j * n..(j + 1) * n])?;
        restored.extend_from_slice(&codeword)?;
    }
    Ok(restored)
}

// The messages of words, one after another.
fn message_each<F: WordElement>(
    alloc: Global,
    decoder: &Decoder<F>,
    erased: &[u8],
    items: &[F],
) -> Result<Vec<F>, RsError>
    requires decoder { IsDecoderFor F.field F.adicity F.root erased.now decoder.now }
    requires some { 0 < length erased.now }
    ensures len { IfOk result (λ r. length r.items
        ≡ length items.now / length erased.now * decoder.now.code.k) }
    ensures each { IfOk result (λ r. (j : ℕ) → j < length items.now / length erased.now
        → IsFound (known_by F.modulus F.adicity F.generator) erased.now decoder.now.code.k
        (word_at (length erased.now) (map F.numbering.number items.now) j)
        (word_at decoder.now.code.k (map F.numbering.number r.items) j)) }
    ensures none { (result ≡ Err RsError.NoCodeword) → ((j : ℕ) → j < length items.now / length erased.now
        → HasCodeword (known_by F.modulus F.adicity F.generator) erased.now decoder.now.code.k
        (word_at (length erased.now) (map F.numbering.number items.now) j)) → ⊥ }
{
    let n = erased.len();
    let mut found = Vec::new(alloc);
    for j in 0..items.len() / n {
        let message = decoder.message(alloc, &items[j * n..(j + 1) * n])?;
        found.extend_from_slice(&message)?;
    }
    Ok(found)
}
