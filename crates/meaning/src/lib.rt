// Why the definition is right. This crate has no code: specs/ states, proofs/ proves.
#![tactic(auto)]
