// Theorems about a record of a named point: its layout read back, both ways.
#![tactic(auto)]
