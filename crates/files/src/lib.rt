// The file of a plan: definitions and theorems alone, no code.
#![tactic(auto)]
