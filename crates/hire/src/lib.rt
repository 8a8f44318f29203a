// The clause of demand 1, over sequences of calls to a unit: definitions and laws are in specs/ and proofs/. It has no code.
#![tactic(auto)]
