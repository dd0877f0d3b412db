// The notation's grammar: definitions and laws, with no code of their own.
// `specs/` has the symbols, the derivations, what a tree means and the executable form of the grammar; `proofs/Theorems.antt` says how they
// hang together. The readers, in `parser`, cite these definitions.

#![tactic(auto)]
