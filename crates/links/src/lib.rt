// Links of the xor list: the steps that trade and set neighbours, and the two that join lists.
#![tactic(auto)]

pub mod between;
pub mod xor_ops;
