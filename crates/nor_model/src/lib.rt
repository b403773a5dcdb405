// The modelled part of docs/SCOPE.md, and that the commands do on it what they should: definitions and theorems alone, no code.
#![tactic(auto)]
