// No code: lines and commands read and written back, document 02, order 1, in specs/ and proofs/.
#![tactic(auto)]
