// Tests and sums over lists, with the laws that loops over them use. There is no code here: see specs/.
#![tactic(auto)]
