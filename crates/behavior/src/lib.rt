//! What a program does from a state on, as a tree of acts, and what it means that two programs do the same.
//! Others rest on the definitions `Run`, `Backward`, `Forward`, `Keeps` and `Explains`, and on their laws in `proofs/`: `beside_keeps`, `keeps_then`, `keeps_through`, `runs-forward`, `runs-backward`, `blocks_forward`, `blocks_backward`, `explained`.
//! Source: forward and backward simulation (Lynch and Vaandrager, Information and Computation 121, 1995).
#![tactic(auto)]
