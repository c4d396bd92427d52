// Connections over whole runs of events, and two sides that talk to each other. The claims stand in specs/Claims.antt, their proofs in proofs/Theorems.antt. There is no code here.
#![tactic(auto)]
