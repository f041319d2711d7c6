// What ties a store's table to the ledger: its meaning in the ledger's words, its soundness, and the lemmas of every call.
// Stands on the ledger and the table; the public calls stand above it. It has definitions and proofs, and no code.
#![tactic(auto)]
