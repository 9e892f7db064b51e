// Floor 0: definitions and facts on lists and numbers that several crates cite. It has no code of its own.
#![tactic(auto)]
