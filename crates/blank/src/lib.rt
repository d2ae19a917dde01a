// A plan with nobody in it: what is claimed of it (specs/Claim), and proved (proofs/laws).
#![tactic(auto)]
