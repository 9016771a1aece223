//! Tests of queries, of terms on the heap, and of what is written of them.
#![tactic(auto)]

#[cfg(test)]
mod bench;
#[cfg(test)]
mod limit_tests;
#[cfg(test)]
mod numbers;
#[cfg(test)]
mod query_tests;
#[cfg(test)]
mod text_rows;
#[cfg(test)]
mod text_tests;
