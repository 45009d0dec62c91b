// One step of the run over files (document 01, "Directives"): what each directive, a usage and the end of a file do.
#![tactic(auto)]

pub mod defining;
pub mod entering;
pub mod putting;
pub mod stage;
