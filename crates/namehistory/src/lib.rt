// What calls on an area of names come to over lists of calls. There is no code here: the definitions are those of
// crates namearea and nametable, the code is that of namelist and nametable.
#![tactic(auto)]
