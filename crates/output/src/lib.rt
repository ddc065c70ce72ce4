// No code: what `partycall` writes for a whole input (document 01, 'The house call list'), in specs/, with worked examples.
#![tactic(auto)]
