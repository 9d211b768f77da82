// No code: the log, courses, and demand 3 over every list of lines, in specs/ and proofs/.
#![tactic(auto)]
