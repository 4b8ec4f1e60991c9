// The bit rule over any keystream generator: definitions in specs/, theorems in proofs/, no code.
#![tactic(auto)]
