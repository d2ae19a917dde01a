// Theorems about rounds: no step of one is refused, and they come to rest.
#![tactic(auto)]
