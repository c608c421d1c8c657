// Laws that many crates share: of tests, lists, tables, conditions and the reader's rules as a whole. Proofs only.
#![tactic(auto)]
