// Demand 3: the definitions of what it says of every list of evaluation calls on an image, and examples of them.
#![tactic(auto)]
