// Demand 3 of the driver itself: its sessions, starts and steps on the modelled part: definitions and theorems alone, no code.
#![tactic(auto)]
