//! Commands as tasks, what they came to, and the entries that tell it; and what execution means: sequences, atomics,
//! and groups that stay open over messages.
#![tactic(auto)]

pub mod answers;
mod atomics;
mod attempts;
mod commands;
mod containers;
pub mod engine;
mod entries;
mod groups;
pub mod laws;
pub mod marks;
pub mod metas;
pub mod reports;
mod step;
mod task_lists;
pub mod tasks;
mod unfinished;
mod updates;

pub use answers::answer_each;
pub use engine::Engine;
pub use marks::EngineMark;
pub use reports::{Part, Report, Started};
pub use tasks::{Named, Origin, Post, Task, Work};
