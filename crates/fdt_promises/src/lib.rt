// Theorems over the calls of the writer. There is no code here.
#![tactic(auto)]
