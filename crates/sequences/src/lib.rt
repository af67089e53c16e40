// Theorems only: demand 3 over whole sequences of calls (see specs/).

#![tactic(auto)]
