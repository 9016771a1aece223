//! What a run is: the steps of a machine, the events and the work of the first of them, where they
//! lead, and the bytes that events stand for. Definitions and their laws alone; nothing runs.
#![tactic(auto)]
