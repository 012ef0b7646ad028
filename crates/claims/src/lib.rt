// What is claimed of every history of calls and every compromise after it: definitions in specs/, theorems in proofs/, no code.
#![tactic(auto)]
