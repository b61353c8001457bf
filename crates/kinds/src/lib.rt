// The kinds of movable blocks: definitions and laws alone.
#![tactic(auto)]
