//! What a term is to the definitions: a plain tree of numbers, with no memory and no limits.
#![tactic(auto)]
