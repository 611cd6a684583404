// The demands of document 01 over the entry points' own definitions. No function: specs/ states them, proofs/ proves them from `laws`.
#![tactic(auto)]
