// No code: the proof of requirement 3. What it speaks of is in specs/, the theorem and the way to it in proofs/.
#![tactic(auto)]
