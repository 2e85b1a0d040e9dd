// The words of a pool: node numbers and names, and the steps on links that lists of every kind share. The pool is a lent
// slice of words, one a node. specs/ says what each step does, for every slice and every number, and what a listing is.
#![tactic(auto)]

pub mod link_ops;
pub mod names;
