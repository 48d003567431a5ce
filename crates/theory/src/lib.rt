// The theory of runs, views and folds. There is no code here: the definitions are in specs/, the laws there and in proofs/.
#![tactic(auto)]
