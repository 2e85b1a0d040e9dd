// Statements alone: the table of refusals for all calls of the library. specs/ says it, and proofs/ proves it by citing the
// crates below.
#![tactic(auto)]
