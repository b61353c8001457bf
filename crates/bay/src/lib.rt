// One bay of a zone: definitions and laws alone.
#![tactic(auto)]
