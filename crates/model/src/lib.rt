// The definition of every call on a Distributor: what it does, and what it answers. There is no code here.
#![tactic(auto)]
