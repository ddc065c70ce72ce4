// The nucleus as a caller has it, with the hold queue as a list of entries: definitions, and no code.
#![tactic(auto)]
