// Floor 6: tables that were made to be passed on, through the calls: the writer takes them, they stand as made where
// they are read, and a query passes them. Theorems over definitions; it has no code of its own.
#![tactic(auto)]
