// Start here: the functions keep the promises. Claims in specs/, each proved in proofs/ by citing the rooms below. No code.

#![tactic(auto)]
