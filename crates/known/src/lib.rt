// Theorems only: the known answers of document 01 (see specs/).

#![tactic(auto)]
