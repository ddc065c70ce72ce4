// No code: the journal of requirement 3 beside the calls of the nucleus, and what is claimed of them, in specs/.
#![tactic(auto)]
