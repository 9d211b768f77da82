// No code: what a program does that answers lines as their bytes come, and the theorem over every way of cutting its input into reads.
#![tactic(auto)]
