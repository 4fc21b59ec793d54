#![tactic(auto)]

// The model of a list of calls, and when a heap agrees with it: definitions, and the proofs about them.
