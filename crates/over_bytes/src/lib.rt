// Demand 3 through 256 packed bytes: the session is unpacked before each call and packed after it: definitions and theorems alone, no code.
#![tactic(auto)]
