// Who woke whom: what is claimed of the waking links (specs/Claim), and proved (proofs/laws).
#![tactic(auto)]
