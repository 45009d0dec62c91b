// The run over files (document 01, "Directives"), turn by turn: definitions and what holds of every run.
#![tactic(auto)]
