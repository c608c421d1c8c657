// Names by their words without case: definitions and laws for the load check.
#![tactic(auto)]
