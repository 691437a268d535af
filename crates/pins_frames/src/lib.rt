// No code: that the frame call on what samples hand over is the frame call is stated in specs/ and proved in proofs/.
#![tactic(auto)]
