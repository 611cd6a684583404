// Definitions and laws only, no function: a theory of barrier snapshots over a graph of tasks.
// specs/ holds what a reader must believe (specs/Lib.antt is the index), proofs/ what only proves (proofs/Lib.antt).
// A later crate reads its own run as a run of this theory and takes the promises from here.
#![tactic(auto)]
