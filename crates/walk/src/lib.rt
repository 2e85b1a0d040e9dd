// Walk and clear: the calls that follow a chain, over lent words and lent marks, one byte a node.
#![tactic(auto)]

pub mod clear;
pub mod marks;
pub mod step;
pub mod walk;
