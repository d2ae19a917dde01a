// Named points: what is claimed of stores (store/Claims, store/Console), proved.
#![tactic(auto)]
