// Laws of the nearest whole number, `nearest` and `nearestℤ`, and what describes it. Proofs only.
#![tactic(auto)]
