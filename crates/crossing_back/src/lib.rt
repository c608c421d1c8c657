// What a host's numbers say, crossed back, and that nothing is lost. Definitions and proofs only.
#![tactic(auto)]
