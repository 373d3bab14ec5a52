// The text form, read and written: definitions and laws alone. What there is to read is in specs/, and proofs/ has the laws.

#![tactic(auto)]
