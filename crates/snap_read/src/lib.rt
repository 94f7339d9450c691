//! States as they are published, and readers that see them without waiting for the writer.
//!
//! `publish` has the trait of what takes in published states, `history` the list of them that the
//! proofs keep, `shown` a state with the list that it ends, and `snap` the writer and its readers
//! over `left_right`.
#![tactic(auto)]

mod copying;
mod history;
mod publish;
mod shown;
mod snap;
#[cfg(test)]
mod tests;

pub use history::{READERS, SnapNaming, SnapOpened};
pub use publish::{NoPublish, Publish, Told};
pub use shown::Shown;
pub use snap::{SnapNote, SnapReader, SnapWriter};
