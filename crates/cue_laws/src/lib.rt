// Theorems about cues: each module of the part hears once, one copy fewer than it has modules, hops are the tree's path, 73 is exact.
#![tactic(auto)]
