//! Numbers of marked places. Which places are marked can't be foreseen, so no branch waits for a mark.

ghost use Rattle.std.specs.Prelude.{◌≡◌};
ghost use Rattle.rs_code.specs.Codeword.{erasure_count, mark_count};

/// How many places are marked.
pub fn count_marked(marks: &[bool]) -> usize
    ensures { result ≡ mark_count marks.now }
{
    let mut count = 0;
    for i in 0..marks.len() {
        count += if marks[i] { 1 } else { 0 };
    }
    count
}

/// How many places of a word are erased.
pub fn count_erased<T: Copy>(word: &[Option<T>]) -> usize
    ensures { result ≡ erasure_count word.now }
{
    let mut count = 0;
    for i in 0..word.len() {
        count += if word[i].is_none() { 1 } else { 0 };
    }
    count
}
