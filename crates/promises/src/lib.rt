// What is promised: claims in specs/, each proved in proofs/ by citing the rooms below. No code.

#![tactic(auto)]
