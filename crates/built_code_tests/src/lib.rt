//! Tests of the form of the code that programs become: what is promised of it is counted from the kernel form and the facts.
#![tactic(auto)]

#[cfg(test)]
mod accepted;
#[cfg(test)]
mod cell_count;
#[cfg(test)]
mod cells;
#[cfg(test)]
mod choices;
#[cfg(test)]
mod compiled;
#[cfg(test)]
mod examples;
#[cfg(test)]
mod frame_count;
#[cfg(test)]
mod frames;
#[cfg(test)]
mod interval;
#[cfg(test)]
mod jumps;
#[cfg(test)]
mod line_targets;
#[cfg(test)]
mod made;
#[cfg(test)]
mod moves;
#[cfg(test)]
mod named_registers;
#[cfg(test)]
mod occurrences;
#[cfg(test)]
mod procedures;
#[cfg(test)]
mod promises;
#[cfg(test)]
mod reached_lines;
#[cfg(test)]
mod registers;
#[cfg(test)]
mod selection;
#[cfg(test)]
mod spelled;
#[cfg(test)]
mod taken_clause;
#[cfg(test)]
mod unifications;
#[cfg(test)]
mod unify_count;
