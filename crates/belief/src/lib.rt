// The host's rules and demand 3: there is no code here.
#![tactic(auto)]
