//! What calls make together, stated as contracts of functions that callers may cite: they promise nothing but
//! their contracts.

ghost use Rattle.std.specs.Prelude.{◌≡◌, ◌≢◌, ℕ, ◌+◌, ◌*◌, ◌<◌, ◌≤◌, ◌^◌, List, ◌++◌, All, length};
ghost use Rattle.ark_numbers.specs.Answers.{coset_of, AreValues, AreInterpolated};
ghost use Rattle.ark_words.specs.Codes.{FitWords, AreRestored, FitMessages, AreFound, message_size};
ghost use Rattle.ark_words.specs.Numbers.{AreWhole, numbers};
ghost use Rattle.ark_words.specs.Parts.{AreColumns, AreRows, AreRowsBack, AreColumnsBack, AreOrdered};

use crate::element::WordElement;

/// A law: where each column of a list of numbers became its values, as `fft_columns` does, and then each
/// row, as `fft_rows` does, wherever and in whatever order, item `j` of row `i` is value `i + 2^a * j` of
/// the whole list.
pub fn parts_make_the_transform<F: WordElement>()
    ensures { (a b h : ℕ) (xs values : List ℕ) (columns rows : ℕ → List ℕ) → a + b < 64
        → a + b ≤ F.spelled.known.adicity.two → h < F.spelled.known.modulus → h ≢ 0
        → All (λ x. x < F.spelled.known.modulus) xs
        → AreColumns F.spelled.known a b h xs columns → AreRows F.spelled.known a b h columns rows
        → AreValues F.spelled.known (coset_of F.spelled.known (2 ^ a * 2 ^ b) h) xs values
        → AreOrdered F.spelled.known a b values rows }
{
    let _ = F::WIDTH;
}

/// A law: where the rows hold values in this order, and each was taken back, as `ifft_rows` does, and then
/// each column, as `ifft_columns` does, the list of these columns has these values.
pub fn parts_make_the_inverse<F: WordElement>()
    ensures { (a b h : ℕ) (values xs : List ℕ) (rows before : ℕ → List ℕ) → a + b < 64
        → a + b ≤ F.spelled.known.adicity.two → h < F.spelled.known.modulus → h ≢ 0
        → All (λ x. x < F.spelled.known.modulus) values → length xs ≡ 2 ^ a * 2 ^ b
        → AreOrdered F.spelled.known a b values rows
        → AreRowsBack F.spelled.known a b h rows before → AreColumnsBack F.spelled.known a b h before xs
        → AreInterpolated F.spelled.known (coset_of F.spelled.known (2 ^ a * 2 ^ b) h) values xs }
{
    let _ = F::WIDTH;
}

/// A law: lists of as many words, which spell the same elements, are the same list. So calls that answer the
/// same numbers write the same words.
pub fn one_list_of_words<F: WordElement>()
    ensures { (words others : List ℕ) → AreWhole F.spelled words → length words ≡ length others
        → All (λ word. word < 2 ^ 64) words → All (λ word. word < 2 ^ 64) others
        → numbers F.spelled.width words ≡ numbers F.spelled.width others → words ≡ others }
{
    let _ = F::WIDTH;
}

/// A law: words are apart. Where the words of two lists were restored, or their messages found, by a call
/// each, so are those of both lists together: cuts make no difference.
pub fn words_are_apart<F: WordElement>()
    ensures restored { (erased old more new made : List ℕ) (k : ℕ) → FitWords F.spelled old erased k
        → length new ≡ length old
        → AreRestored F.spelled old erased k new → AreRestored F.spelled more erased k made
        → AreRestored F.spelled (old ++ more) erased k (new ++ made) }
    ensures found { (erased words more messages others : List ℕ) → FitMessages F.spelled words erased messages
        → AreFound F.spelled words erased (message_size F.spelled words erased messages) messages
        → AreFound F.spelled more erased (message_size F.spelled words erased messages) others
        → AreFound F.spelled (words ++ more) erased (message_size F.spelled words erased messages)
        (messages ++ others) }
{
    let _ = F::WIDTH;
}
