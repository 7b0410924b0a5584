// Demand 3, over definitions alone: an image is accepted exactly if some order of insertions makes it. `specs/Demand.antt` is the
// answer, `specs/Made.antt` says what it is that some order of insertions makes an image and `specs/Called.antt` how a caller does it; the other files
// lead from one to the other.

#![tactic(auto)]
