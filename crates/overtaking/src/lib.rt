// No code: that nobody who waits in line for a record is overtaken, said in specs/ and proved in proofs/.
#![tactic(auto)]
