// Demand 3 in a host's numbers: what holds of every list of calls that a host in C or Rust makes. Definitions and proofs only.
#![tactic(auto)]
