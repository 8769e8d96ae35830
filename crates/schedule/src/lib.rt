#![tactic(auto)]

// The schedule of message passing over plain lists: definitions in specs/, laws and demand 3 in proofs/. There is no code here:
// the crate `plan` computes what these definitions say.
