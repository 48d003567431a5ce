// What follows from the answers of the calls, before they are handed to a caller: when each number is given, the small trays, and that folding
// changes nothing that is read. There is no code here: statements and proofs are in specs/, those of the quick calls' table in proofs/.
#![tactic(auto)]
