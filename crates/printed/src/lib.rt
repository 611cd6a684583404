// What the programs print, said by direct evaluation. No function: specs/ states it, proofs/ proves it from `promises`.
#![tactic(auto)]
