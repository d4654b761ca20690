// The tables of a heap, from the keys and values of its lines.
#![tactic(auto)]

pub mod order;
pub mod scans;
pub mod tables;
