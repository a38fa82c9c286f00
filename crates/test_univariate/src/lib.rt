//! Tests of domains, of polynomials in one variable, of their values over a domain, and of what domains give at
//! points. What listed polynomials give stands in the cases of `test_univariate_answers` and `test_law_answers`.
#![tactic(auto)]

#[cfg(test)]
mod calls;
#[cfg(test)]
mod division;
#[cfg(test)]
mod domains;
#[cfg(test)]
mod draws;
#[cfg(test)]
mod forms;
#[cfg(test)]
mod mixed;
#[cfg(test)]
mod plain;
#[cfg(test)]
mod points;
#[cfg(test)]
mod products;
#[cfg(test)]
mod sums;
#[cfg(test)]
mod trials;
#[cfg(test)]
mod tried;
#[cfg(test)]
mod values;
