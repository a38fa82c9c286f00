//! What calls over prime fields answer, in plain numbers: definitions (`specs/`), and lemmas that carry over what is said
//! of a field's elements (`proofs/`), no code.
#![tactic(auto)]
