//! What a prover makes of all rounds.

/// A proof of a sum over the cube: what is sent, and the point that it leads to, which whoever draws the
/// challenges knows.
#[derive(Debug, Drop)]
pub struct Proof<F> {
    /// Each round's values at 0, 1, .., d: what is sent.
    pub rounds: Vec<Vec<F>>,
    /// Each round's challenge, to which its variable is bound: where the tables' extensions are opened.
    pub point: Vec<F>,
}
