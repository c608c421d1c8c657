// W-201: what holds of every list of calls on a text that comes in chunks. Proofs only.
#![tactic(auto)]
