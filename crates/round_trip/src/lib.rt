// The load check as the owners put it, and the listing of an image read again: laws of the definitions. Proofs only.
#![tactic(auto)]
