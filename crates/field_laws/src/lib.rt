// Theorems about the field, its steps, runs and rounds.
#![tactic(auto)]
