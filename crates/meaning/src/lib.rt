// That a host which follows starts and steps carries out the scripts of the commands: definitions and theorems alone, no code.
#![tactic(auto)]
