//! The words of a command line: which form they have.
#![tactic(auto)]

mod behind;
mod commands;
pub mod forms;
mod subcommands;

pub use forms::{DeviceWords, Form, ServeWords, USAGE, read_form};
