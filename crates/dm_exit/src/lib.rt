//! How a run ends, and what it has put by then.
#![tactic(auto)]

pub mod exit;
pub mod putting;

pub use exit::Exit;
pub use putting::put_text;
