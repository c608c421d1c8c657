// Case has no meaning: laws of the definitions. Proofs only.
#![tactic(auto)]
