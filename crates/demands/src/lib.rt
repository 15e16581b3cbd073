// The theorems of demands 1 and 2 over the four entries: there is no code here.
#![tactic(auto)]
