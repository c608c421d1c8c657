// Laws of images: the load check accepts the images of well-formed blocks and nothing else. Proofs only.
#![tactic(auto)]
