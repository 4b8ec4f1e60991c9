// What is promised of lines, as theorems over the public functions' own contracts: no code.
#![tactic(auto)]
