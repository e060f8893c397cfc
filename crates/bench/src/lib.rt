// The bench: a session performs the commands of a script, and their answers are written as text.
#![tactic(auto)]

pub mod answer;
pub mod help;
pub mod session;
pub mod writing;
