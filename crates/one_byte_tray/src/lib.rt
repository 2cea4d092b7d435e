// No code: the tray as it was while its numbers were one byte, kept for comparison, and what change request #104 leaves of it and changes. specs/ has what is
// stated, proofs/ what shows it.
#![tactic(auto)]
