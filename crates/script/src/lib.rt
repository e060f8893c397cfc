// The script: a line of bytes is read as a command.
#![tactic(auto)]

pub mod command;
pub mod fault;
mod numbers;
mod readable;
pub mod reading;
mod words;
