// Holds, changes, ends and back-outs over an abstract store, in specs/, and the argument of requirement 3, in proofs/. There is no code here.
#![tactic(auto)]
