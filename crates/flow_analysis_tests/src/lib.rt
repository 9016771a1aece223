//! Tests of the analysis: kernel programs with facts that were found by hand, and generated ones, on which rounds over all clauses
//! give the same.
#![tactic(auto)]

#[cfg(test)]
mod generated;
#[cfg(test)]
mod generator;
#[cfg(test)]
mod hand;
#[cfg(test)]
mod notation;
#[cfg(test)]
mod numbers;
#[cfg(test)]
mod rounds;
#[cfg(test)]
mod worked;
