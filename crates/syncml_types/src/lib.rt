//! The values of SyncML messages, and their one canonical spelling.
#![tactic(auto)]

pub mod command;
pub mod copies;
mod fit_data;
mod fit_forms;
mod fit_numbers;
mod fit_texts;
mod fitness;
pub mod lengths;
pub mod message;
pub mod put_command;
pub mod put_value;
pub mod put_whole;
pub mod values;

pub use command::{
    AlertCmd, Block, Command, Member, Plain, ResultsCmd, SeqMember, StatusCmd, Step, Verb,
};
pub use lengths::{command_length, head_length, length};
pub use message::{Message, Unfit};
pub use put_whole::{put_message, put_parts};
pub use values::{Cred, Header, Item, Loc, Meta};
