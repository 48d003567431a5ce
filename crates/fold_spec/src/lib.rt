// What folding neighbouring runs answers (docs/RULES.md, "Folding"). The definitions are in specs/, what follows from them
// in proofs/; the call is in `fold`.
#![tactic(auto)]
