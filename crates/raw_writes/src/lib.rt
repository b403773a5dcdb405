// Rules for raw writes, of the driver on the modelled part: definitions and theorems alone, no code.
#![tactic(auto)]
