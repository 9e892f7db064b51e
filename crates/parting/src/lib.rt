// Floor 4: texts parted into keywords, and what that comes to through the calls. Theorems over definitions; it has no
// code of its own.
#![tactic(auto)]
