//! Tests of terms, of polynomials in several variables and of multilinear extensions. What listed ones give stands in
//! the cases of `test_multivariate_answers`.
#![tactic(auto)]

#[cfg(test)]
mod building;
#[cfg(test)]
mod drawn;
#[cfg(test)]
mod extensions;
#[cfg(test)]
mod lexicographic;
#[cfg(test)]
mod orders;
#[cfg(test)]
mod tried;
