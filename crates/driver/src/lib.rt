// One notion of a driver, one host over it, and the scripts as such a driver: definitions and theorems alone, no code.
#![tactic(auto)]
