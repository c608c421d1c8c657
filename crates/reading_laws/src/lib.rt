// What a text reads to is well formed: laws of the reader's rules. Proofs only.
#![tactic(auto)]
