// The demands on what is archived, from the text to the bytes: definitions in `specs/`, theorems in `proofs/`. No code.
// `specs/Demand3.antt` says what is promised of the bytes of an entry; `proofs/Demand3.antt` proves it for
// every condition, in any order of its unknowns, and so for every accepted text; `TwoOrders.antt` compares the entries of two orders.
// `specs/OverTheCalls.antt` says that the calls hand these bytes over and read them back; `proofs/Refuted.antt` shows wrong archives that contradict the promise.
// The rows of the bench table and of the signs, and document 01's sample, hold of literal texts and bytes: `StarredRows.antt`, `SignRows.antt`, `Sample.antt`.

#![tactic(auto)]
