// No code: what a program in another language has after any list of calls, said in specs/ and proved in proofs/.
#![tactic(auto)]
