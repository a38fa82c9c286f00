//! What a word spells: a number, or a list of numbers.

ghost use Rattle.std.specs.Prelude.{◌≡◌, ◌≤◌, ◌^◌, ◌↔◌, ℕ, List, IsTrue, IfSome, IfNone, length};
ghost use Rattle.ark_base.specs.Numerals.{IsDecimal};
ghost use Rattle.polyrun_lib.specs.Words.{IsList, SpellsNumber, SpellsList};

/// The number that a word spells, where it is below 2^64.
pub fn number(word: &str) -> Option<u64>
    ensures some { IfSome result (IsDecimal word.now) }
    ensures none { IfNone result ((n : ℕ) → IsDecimal word.now n → 2 ^ 64 ≤ n) }
{
    // `parse` takes a plus, and this does not.
    if word.starts_with('+') {
        return None;
    }
    word.parse().ok()
}

/// Whether a word spells a number: ASCII digits alone, of any length.
pub fn is_number(word: &str) -> bool
    ensures { IsTrue result ↔ SpellsNumber word.now }
{
    !word.is_empty() && word.bytes().all(|byte| byte.is_ascii_digit())
}

/// Whether a word spells a list: numbers joined by commas, or nothing at all. It takes no memory.
pub fn is_list(word: &str) -> bool
    ensures { IsTrue result ↔ SpellsList word.now }
{
    word.is_empty() || word.split(',').all(is_number)
}

/// How many numbers are in the list that a word spells: as many as there are pieces between commas. It takes
/// no memory.
pub fn list_len(word: &str) -> usize
    requires { SpellsList word.now }
    ensures { (numbers : List ℕ) → IsList word.now numbers → result ≡ length numbers }
{
    if word.is_empty() {
        0
    } else {
        word.split(',').count()
    }
}
