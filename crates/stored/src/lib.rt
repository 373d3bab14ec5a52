// The stored routine as 01 defines it. This crate has no code: its matter is specs/ (the definitions) and proofs/ (their laws).

#![tactic(auto)]
