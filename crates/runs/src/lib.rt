// Runs of any step, and what holds of them all: nothing here runs. Definitions stand in specs/, what follows from them in proofs/.

#![tactic(auto)]
