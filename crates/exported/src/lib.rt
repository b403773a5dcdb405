// That the exports for C are the functions over bytes of which demand 3 is proved. Definitions and proofs only.
#![tactic(auto)]
