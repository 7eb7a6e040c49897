// One outcome for each call of a public function: nothing here runs. The law and its lines, a file a crate, stand in specs/.

#![tactic(auto)]
