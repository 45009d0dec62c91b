// Pass (document 01, "Macros"; demand 3) as a definition, and what holds of macros that pass: no code.
#![tactic(auto)]
