// No code: what the definitions force, and its proofs. proofs/ has what shows it, specs/ what is stated.
#![tactic(auto)]
