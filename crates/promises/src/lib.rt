// What is promised of the plans, and why it holds. There is no code here: specs/ has the statements, proofs/ their proofs.
#![tactic(auto)]
