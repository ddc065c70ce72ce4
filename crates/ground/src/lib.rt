// The flat store, and the hold queue with its images, read as the abstract machine of `transactions`: definitions in specs/, their laws in proofs/. There is no code here.
#![tactic(auto)]
