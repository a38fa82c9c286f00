//! What transcripts tell, stated as the contracts of functions that callers may cite: they promise nothing
//! but their contracts.

ghost use Rattle.std.specs.Prelude.{◌≡◌, ◌⊎◌, ℕ, List, ◌++◌, ◌<◌, ◌≤◌, ◌^◌};
ghost use Rattle.std.specs.Int.{w64, to_le_bytes};
ghost use Rattle.ark_bytes.specs.declared.compress.Compress.{Compress};
ghost use Rattle.ark_transcript.specs.Calls.{AllFit, Call, spelled};
ghost use Rattle.ark_transcript.specs.Challenges.{Collide, IsChallenge};
ghost use Rattle.ark_transcript.specs.Challenges.{challenge_of, hashed_for, then_asked};

use ark_traits::Field;

/// A law: calls that differ spell bytes that differ, also with the number of a block after them. So what is
/// hashed tells the calls, their order and the block.
pub fn transcripts_differ()
    ensures calls { (cs ds : List Call) → AllFit cs → AllFit ds → spelled cs ≡ spelled ds → cs ≡ ds }
    ensures blocks { (cs ds : List Call) (i j : ℕ) → AllFit cs → AllFit ds → i < 2 ^ 64 → j < 2 ^ 64
        → spelled cs ++ to_le_bytes w64 i ≡ spelled ds ++ to_le_bytes w64 j → (cs ≡ ds) × (i ≡ j) }
{}

/// A law: challenges of 32 bytes or more that are equal come after the same calls and under the same label,
/// or the two texts that their first blocks hash differ and have one SHA-256.
pub fn challenges_differ()
    ensures { (cs ds : List Call) (label other : List ℕ) (size : ℕ) → 32 ≤ size
        → AllFit (then_asked cs label size) → AllFit (then_asked ds other size)
        → challenge_of cs label size ≡ challenge_of ds other size
        → ((cs ≡ ds) × (label ≡ other)) ⊎ Collide (hashed_for cs label size) (hashed_for ds other size) }
{}

/// A law: the same calls and the same label have one challenge in a field, and the same calls after it.
pub fn one_challenge<F: Field>()
    ensures { (label : List ℕ) (tries : ℕ) (calls : List Call) (x y : F) (after other : List Call)
        → IsChallenge F.field (F.format Compress.Yes) F.element_size label tries calls x after
        → IsChallenge F.field (F.format Compress.Yes) F.element_size label tries calls y other
        → (x ≡ y) × (after ≡ other) }
{}
