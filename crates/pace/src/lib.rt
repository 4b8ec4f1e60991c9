// The tick over any bit rule: definitions in specs/, theorems in proofs/, no code.
#![tactic(auto)]
