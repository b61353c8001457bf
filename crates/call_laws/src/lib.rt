// What the proofs of the calls have in common: definitions and laws alone.
#![tactic(auto)]
