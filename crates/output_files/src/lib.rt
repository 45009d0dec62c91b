// The files that outputs go to. An output is written whole to a new file beside it, which takes its name once all outputs are
// written; a device and what standard output and standard error stand for are written to as they are.
#![tactic(auto)]

mod aside;
mod output_file;
mod paths;
mod sink;
mod targets;

pub use aside::set_aside;
pub use output_file::OutputFile;
pub use sink::Sink;
pub use targets::{is_standard, names_one, overwrites};
