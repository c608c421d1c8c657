// Computed examples of the definitions that take long: whole texts, refused, accepted, at the limits, listed. Proofs only.
#![tactic(auto)]
