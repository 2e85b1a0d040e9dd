// Statements alone: what the library promises, for a reader who wants nothing else. specs/ says it, and proofs/ proves it by
// citing the crates below.
#![tactic(auto)]
