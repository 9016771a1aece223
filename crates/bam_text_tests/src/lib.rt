//! Tests of BAM text: what is read is printed as it was, and the first faulty line is found.
#![tactic(auto)]

#[cfg(test)]
mod accepted;
#[cfg(test)]
mod faulty_lines;
#[cfg(test)]
mod faulty_texts;
#[cfg(test)]
mod large;
#[cfg(test)]
mod parts;
#[cfg(test)]
mod readings;
