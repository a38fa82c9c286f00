//! The lines of an answer.

ghost use Rattle.std.specs.Prelude.{◌≡◌, ◌∷◌, [], ℕ, List, map, IfOk, string_bytes};
ghost use Rattle.polyrun_lib.specs.Words.{IsList};
ghost use Rattle.polyrun_lib.specs.Lines.{ended, line_of, row_line_of, refusal_line_of, usage_text};

use ark_base::{PolyError, PrimeNumbers};
use std::alloc::{AllocError, Global};

/// The elements' numbers in decimal, joined by commas, and a newline.
pub fn line<F: PrimeNumbers>(alloc: Global, elements: &[F]) -> Result<String, AllocError>
    ensures text { IfOk result (λ text. string_bytes text ≡ line_of (map F.numbering.number elements.now)) }

    // Up to its newline it spells the numbers.
    ensures spelled { IfOk result (λ text. (word : List ℕ)
        × (string_bytes text ≡ ended word) × IsList word (map F.numbering.number elements.now)) }
{
    let mut text = String::new(alloc);
    for (i, element) in elements.iter().enumerate() {
        if i > 0 {
            text.push(',')?;
        }
        write!(text, "{element}")?;
    }
    text.push('\n')?;
    Ok(text)
}

/// An element's number in decimal, and a newline.
pub fn single_line<F: PrimeNumbers>(alloc: Global, element: F) -> Result<String, AllocError>
    ensures { IfOk result (λ text. string_bytes text ≡ line_of (F.numbering.number element ∷ [])) }
{
    format!(in alloc; "{element}\n")
}

/// A number in decimal, and a newline.
pub fn number_line(alloc: Global, number: u64) -> Result<String, AllocError>
    ensures { IfOk result (λ text. string_bytes text ≡ line_of (number ∷ [])) }
{
    format!(in alloc; "{number}\n")
}

/// What is said of a row: its number, and whether it is good.
pub fn row_line(alloc: Global, number: u64, is_good: bool) -> Result<String, AllocError>
    ensures { IfOk result (λ text. string_bytes text ≡ row_line_of number is_good) }
{
    if is_good {
        format!(in alloc; "{number} ok\n")
    } else {
        format!(in alloc; "{number} bad\n")
    }
}

/// The line that reports an error.
pub fn refusal_line(refusal: PolyError) -> &'static str
    ensures { result.now ≡ refusal_line_of refusal }
{
    match refusal {
        PolyError::Memory => "error 1: Memory\n",
        PolyError::NoDomain => "error 2: NoDomain\n",
        PolyError::Overflow => "error 3: Overflow\n",
        PolyError::ForeignSubdomain => "error 4: ForeignSubdomain\n",
        PolyError::ZeroDivisor => "error 5: ZeroDivisor\n",
        PolyError::NotSparse => "error 6: NotSparse\n",
    }
}

/// The line that is written where the words are no command.
pub fn usage_line() -> &'static str
    ensures { result.now ≡ usage_text }
{
    "usage\n"
}
