//! Tests of multilinear extensions. What they give for listed tables stands in the cases of
//! `test_multivariate_answers` and `test_law_answers`.

mod bound;
mod drawn;
mod exchanged;
mod forms;
mod joined;
mod sums;
mod tried;
mod written;
