// What is listed reads back: laws of the listing and of the reader's rules. Proofs only.
#![tactic(auto)]
