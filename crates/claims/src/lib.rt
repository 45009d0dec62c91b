// What holds of every flattening (documents 00 and 01): one claim over the definitions of flatten, classify and pass; no code.
#![tactic(auto)]
