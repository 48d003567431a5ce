// What building an index answers (docs/RULES.md, "The index"). The definitions are in specs/, what follows from them in
// proofs/; the call is in `build`.
#![tactic(auto)]
