//! The words of the command line.
//!
//! `command` has the commands. `options` has the options of each as clap takes them apart, `values`
//! reads the values that aren't paths, and `reading` puts a command together.
#![tactic(auto)]

mod command;
mod options;
mod reading;
mod values;

pub use command::{Command, PathText};
pub use reading::read_words;
