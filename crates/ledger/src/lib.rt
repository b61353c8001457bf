// The ledger of document 01: definitions alone.
#![tactic(auto)]
