// What every call does to a zone, and that every list of calls answers as the ledger does: definitions and theorems alone.
#![tactic(auto)]
