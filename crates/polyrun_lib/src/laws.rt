//! Laws, as contracts that callers may cite.

ghost use Rattle.std.specs.Prelude.{ℕ, List, map, string_bytes};
ghost use Rattle.polyrun_lib.specs.Commands.{Command as Asked};
ghost use Rattle.ark_numbers.specs.Fields.{Known, known_by};
ghost use Rattle.polyrun_lib.specs.Answer.{Names, Writes, HasAtMostOne};
ghost use Rattle.polyrun_lib.specs.Check.{row_of, IsChecked, IsAnswer};

use ark_base::PrimeNumbers;
use ark_fields::{BabyBear, F5, F433, F65537, Goldilocks, KoalaBear};
use ark_prime256::{Bls12_381Scalar, Bn254Scalar};

/// Words have one answer at most: no other text or status is one.
pub fn one_answer(words: &[String])
    ensures { HasAtMostOne (IsAnswer (map string_bytes words.now)) }
{
    each_writes_one();
}

/// Rows have one list of verdicts at most: no other text or status is what `check` writes of them.
pub fn one_check(field: &str, rows: &[(Vec<String>, String)])
    ensures { HasAtMostOne (IsChecked field.now (map row_of rows.now)) }
{
    each_writes_one();
}

// A command over a field that has a name writes one text at most, with one status.
fn each_writes_one()
    ensures { (word : List ℕ) (f : Known) → Names word f → (c : Asked) → HasAtMostOne (Writes f c) }
{
    one_writing::<F5>();
    one_writing::<F433>();
    one_writing::<F65537>();
    one_writing::<BabyBear>();
    one_writing::<KoalaBear>();
    one_writing::<Goldilocks>();
    one_writing::<Bls12_381Scalar>();
    one_writing::<Bn254Scalar>();
}

// A command over a field writes one text at most, with one status.
fn one_writing<F: PrimeNumbers>()
    ensures { (c : Asked) → HasAtMostOne (Writes (known_by F.modulus F.adicity F.generator) c) }
{}
