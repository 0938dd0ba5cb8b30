// A metadata file beside the files: its lines, what each says, and the rules 80 to 86.
#![tactic(auto)]

pub mod check;
mod cut;
pub mod fault;
mod line;
mod rules;
mod sections;
pub mod told;
mod words;
