//! The commands, and how the words of a command line are read as one.

ghost use Rattle.std.specs.Prelude.{◌≡◌, ◌↔◌, ℕ, List, IfSome, IfNone, IsTrue, map, string_bytes};
ghost use Rattle.ark_base.specs.Numerals.{IsDecimal};
ghost use Rattle.polyrun_lib.specs.Words.{IsList, SpellsNumber, SpellsList};
ghost use Rattle.polyrun_lib.specs.Commands.{AreTwoLists, IsTransform, IsNoTransform, IsRead, IsNoCommand};
ghost use Rattle.polyrun_lib.specs.Commands.{AreValuesAndPoint, IsExtension, IsNoExtension};

use crate::words::{is_list, is_number, list_len, number};

/// Which way a transform goes: from coefficients to values, or back.
#[derive(Clone, Copy)]
pub enum Direction {
    Forward,
    Inverse,
}

/// A command. Its numbers and lists stay the words that spell them, so that usage is judged without memory.
#[derive(Clone, Copy)]
pub enum Command<'a> {
    /// The transform of a list over the domain for a size with an offset, or its inverse.
    Transform {
        direction: Direction,
        size: &'a str,
        offset: &'a str,
        list: &'a str,
    },
    /// The product of the polynomials with these coefficients.
    Mul {
        left: &'a str,
        right: &'a str,
    },
    /// The quotient and the remainder of the first by the second of the polynomials with these coefficients.
    Div {
        left: &'a str,
        right: &'a str,
    },
    /// The value at a point of the polynomial with these coefficients.
    Eval {
        list: &'a str,
        point: &'a str,
    },
    /// The value at a point of the multilinear extension of a list, in so many variables.
    Mle {
        num_vars: usize,
        list: &'a str,
        point: &'a str,
    },
    /// The size of the domain for so many coefficients.
    Size {
        num_coeffs: &'a str,
    },
}

/// The command that the words after the field are, or `None` where they are none.
pub fn parse(words: &[String]) -> Option<Command>
    ensures some { IfSome result (IsRead (map string_bytes words.now)) }
    ensures none { IfNone result (IsNoCommand (map string_bytes words.now)) }
{
    let [name, arguments @ ..] = words else {
        return None;
    };
    match name.as_str() {
        "fft" => parse_transform(Direction::Forward, arguments),
        "ifft" => parse_transform(Direction::Inverse, arguments),
        "mul" => {
            let (left, right) = two_lists(arguments)?;
            Some(Command::Mul { left, right })
        }
        "div" => {
            let (left, right) = two_lists(arguments)?;
            Some(Command::Div { left, right })
        }
        "eval" => {
            let [list, point] = arguments else {
                return None;
            };
            Some(Command::Eval {
                list: list_word(list.as_str())?,
                point: number_word(point.as_str())?,
            })
        }
        "mle" => parse_extension(arguments),
        "size" => {
            let [num_coeffs] = arguments else {
                return None;
            };
            Some(Command::Size {
                num_coeffs: number_word(num_coeffs.as_str())?,
            })
        }
        _ => None,
    }
}

// The transform whose size, offset and list the words are.
fn parse_transform(direction: Direction, words: &[String]) -> Option<Command>
    ensures some { IfSome result (IsTransform (map string_bytes words.now) direction) }
    ensures none { IfNone result (IsNoTransform (map string_bytes words.now)) }
{
    let [size, offset, list] = words else {
        return None;
    };
    Some(Command::Transform {
        direction,
        size: number_word(size.as_str())?,
        offset: number_word(offset.as_str())?,
        list: list_word(list.as_str())?,
    })
}

// The extension whose number of variables, values and point the words are.
fn parse_extension(words: &[String]) -> Option<Command>
    ensures some { IfSome result (IsExtension (map string_bytes words.now)) }
    ensures none { IfNone result (IsNoExtension (map string_bytes words.now)) }
{
    let [num_vars, list, point] = words else {
        return None;
    };
    let num_vars = number(num_vars.as_str())? as usize;
    let list = list_word(list.as_str())?;
    let point = list_word(point.as_str())?;
    if are_values_and_point(num_vars, list, point) {
        Some(Command::Mle {
            num_vars,
            list,
            point,
        })
    } else {
        None
    }
}

// Whether the lists have `2^num_vars` and `num_vars` items, and `num_vars` is below 64. It takes no memory.
fn are_values_and_point(num_vars: usize, list: &str, point: &str) -> bool
    requires list { SpellsList list.now }
    requires point { SpellsList point.now }
    ensures { (xs x : List ℕ) → IsList list.now xs → IsList point.now x
        → IsTrue result ↔ AreValuesAndPoint num_vars xs x }
{
    num_vars < 64 && list_len(list) == 1 << num_vars && list_len(point) == num_vars
}

// The words themselves, where they spell two lists.
fn two_lists(words: &[String]) -> Option<(&str, &str)>
    ensures some { IfSome result (λ lists. (xs : List ℕ) × (ys : List ℕ)
        × AreTwoLists (map string_bytes words.now) xs ys × IsList lists.0.now xs × IsList lists.1.now ys) }
    ensures none { IfNone result ((xs ys : List ℕ) → ¬ AreTwoLists (map string_bytes words.now) xs ys) }
{
    let [left, right] = words else {
        return None;
    };
    Some((list_word(left.as_str())?, list_word(right.as_str())?))
}

// The word itself, where it spells a number.
fn number_word(word: &str) -> Option<&str>
    ensures some { IfSome result (λ number. (number.now ≡ word.now) × SpellsNumber word.now) }
    ensures none { IfNone result ((n : ℕ) → ¬ IsDecimal word.now n) }
{
    if is_number(word) { Some(word) } else { None }
}

// The word itself, where it spells a list.
fn list_word(word: &str) -> Option<&str>
    ensures some { IfSome result (λ list. (list.now ≡ word.now) × SpellsList word.now) }
    ensures none { IfNone result ((xs : List ℕ) → ¬ IsList word.now xs) }
{
    if is_list(word) { Some(word) } else { None }
}
