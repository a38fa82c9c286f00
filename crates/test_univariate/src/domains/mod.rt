//! Tests of domains and their transforms that no clause replaces: sweeps over every size, old bodies against new, the
//! products behind values, and draws. Cases with answers from outside stand in `test_univariate_answers`.

mod draws;
mod traces;
mod transforms;
mod tried;
