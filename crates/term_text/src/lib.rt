//! What the text of a term is: definitions alone.
#![tactic(auto)]
