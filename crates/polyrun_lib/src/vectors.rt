//! The table of answers of each field.

ghost use Rattle.std.specs.Prelude.{◌≡◌, ℕ, List, map, IfOk, IfSome, IfNone, string_bytes};
ghost use Rattle.polyrun_lib.specs.Vectors.{Row};
ghost use Rattle.polyrun_lib.specs.Check.{shown_row, AsksVectors};

use crate::rows::{Checked, TableRow, check_row, refuse};
use ark_base::Sink;
use std::alloc::{AllocError, Global};

/// The words after the field, and what the program writes for them but for the newline at its end.
pub type Vector = (&'static [&'static str], &'static str);

const MODULO_5: [Vector; 5] = [
    (&["fft", "4", "1", "1,2,3,4"], "0,4,3,2"),
    (&["ifft", "4", "1", "1,2,3,4"], "0,3,2,1"),
    (&["fft", "2", "2", "1,1"], "3,4"),
    (&["mul", "1,0,1", "1,0,1"], "error 2: NoDomain"),
    (&["div", "1,2,3", "1,2"], "4,4\n2"),
];

const MODULO_433: [Vector; 6] = [
    (&["size", "5"], "8"),
    (&["size", "17"], "18"),
    (&["size", "432"], "432"),
    (&["size", "433"], "error 2: NoDomain"),
    (
        &["mul", "1,1,1,1,1,1,1,1,1", "1,1,1,1,1,1,1,1,1"],
        "1,2,3,4,5,6,7,8,9,8,7,6,5,4,3,2,1",
    ),
    (
        &["fft", "17", "1", "0,1"],
        "1,137,150,199,417,406,198,280,256,432,296,283,234,16,27,235,153,177",
    ),
];

const MODULO_65537: [Vector; 6] = [
    (
        &["fft", "8", "1", "1,2"],
        "3,8193,65026,33,65536,57346,513,65506",
    ),
    (&["div", "4,8,5,1", "1,1"], "4,4,1\n"),
    (&["mle", "2", "0,0,1,0", "65535,17"], "51"),
    (&["mle", "2", "2,3,2,6", "1,17"], "54"),
    (&["mle", "3", "0,2,0,2,0,3,1,4", "123,456,789"], "63855"),
    (&["eval", "1,2", "65538"], "3"),
];

const BABYBEAR: [Vector; 3] = [
    (
        &["fft", "4", "1", "1,2,3,4"],
        "10,569722814,2013265919,1443543103",
    ),
    (
        &[
            "eval",
            "1,2,3",
            "1606938044258990275541962092341162602522202993782792835301376",
        ],
        "1390189409",
    ),
    (&["size", "134217729"], "error 2: NoDomain"),
];

const KOALABEAR: [Vector; 3] = [
    (
        &["ifft", "4", "3", "1,2,3,4"],
        "1065353219,2127921153,591862898,1578610537",
    ),
    (
        &[
            "eval",
            "1,2,3",
            "1606938044258990275541962092341162602522202993782792835301376",
        ],
        "1120682415",
    ),
    (&["size", "16777216"], "16777216"),
];

const GOLDILOCKS: [Vector; 3] = [
    (
        &["fft", "4", "1", "1,2,3,4"],
        "10,18446181119461163007,18446744069414584319,562949953421310",
    ),
    (
        &["div", "1,2,3", "1,2"],
        "13835058052060938241,9223372034707292162\n4611686017353646081",
    ),
    (&["size", "4294967297"], "error 2: NoDomain"),
];

const BLS12_381: [Vector; 4] = [
    (
        &["fft", "2", "3", "5,7"],
        "26,52435875175126190479447740508185965837690552500527637822603658699938581184497",
    ),
    (
        &[
            "eval",
            "1,2,3",
            "1606938044258990275541962092341162602522202993782792835301376",
        ],
        "38531783116717978832573997254792410813253688619140314645020336223475605033205",
    ),
    (
        &[
            "mul",
            "1,52435875175126190479447740508185965837690552500527637822603658699938581184512",
            "1,1",
        ],
        "1,0,52435875175126190479447740508185965837690552500527637822603658699938581184512",
    ),
    (&["size", "18446744073709551616"], "error 2: NoDomain"),
];

const BN254: [Vector; 4] = [
    (
        &[
            "ifft",
            "2",
            "1",
            "12,21888242871839275222246405745257275088548364400416034343698204186575808495615",
        ],
        "5,7",
    ),
    (
        &[
            "eval",
            "1,2",
            "21888242871839275222246405745257275088548364400416034343698204186575808495620",
        ],
        "7",
    ),
    (
        &[
            "mle",
            "2",
            "0,0,1,0",
            "21888242871839275222246405745257275088548364400416034343698204186575808495615,17",
        ],
        "51",
    ),
    (&["size", "268435456"], "268435456"),
];

/// The field of the words and its rows, where the words are a field and `vectors`.
pub fn vectors_of(words: &[String]) -> Option<(&'static str, &'static [Vector])>
    ensures some { IfSome result (λ asked.
        AsksVectors (map string_bytes words.now) asked.0.now (map shown_row asked.1.now)) }
    ensures none { IfNone result ((field : List ℕ) (rows : List Row)
        → ¬ AsksVectors (map string_bytes words.now) field rows) }
{
    let [field, name] = words else {
        return None;
    };
    if name.as_str() != "vectors" {
        return None;
    }
    match field.as_str() {
        "5" => Some(("5", &MODULO_5)),
        "433" => Some(("433", &MODULO_433)),
        "65537" => Some(("65537", &MODULO_65537)),
        "babybear" => Some(("babybear", &BABYBEAR)),
        "koalabear" => Some(("koalabear", &KOALABEAR)),
        "goldilocks" => Some(("goldilocks", &GOLDILOCKS)),
        "bls12-381" => Some(("bls12-381", &BLS12_381)),
        "bn254" => Some(("bn254", &BN254)),
        _ => None,
    }
}

/// A row's words are copied only when its turn has come, so that where memory is refused, the lines before
/// stand.
impl Checked for Vector {
    ghost shown = { shown_row };

    fn check<W: Sink>(
        &self,
        alloc: Global,
        field: &str,
        number: u64,
        out: &mut W,
    ) -> Result<bool, u8> {
        match owned_words(alloc, self.0) {
            Ok(words) => {
                let row = TableRow {
                    number,
                    words: &words,
                    text: self.1,
                };
                check_row(alloc, field, &row, out)
            }
            Err(_) => Err(refuse(out)),
        }
    }
}

// The words with memory of their own.
fn owned_words(alloc: Global, words: &[&str]) -> Result<Vec<String>, AllocError>
    ensures { IfOk result (λ owned. map string_bytes owned.items ≡ map (λ word. word.now) words.now) }
{
    let mut owned = Vec::new(alloc);
    for word in words {
        owned.push(word.to_string(alloc)?)?;
    }
    Ok(owned)
}
