// Computed examples of the definitions that take long: whole blocks and images, and calls on them. Proofs only.
#![tactic(auto)]
