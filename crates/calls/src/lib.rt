// Demand 3: what holds of every list of evaluation calls on an image that passes. Proofs only.
#![tactic(auto)]
