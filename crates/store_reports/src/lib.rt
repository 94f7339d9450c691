//! Commands on a store alone: its results, how much it has, the output of a job, migration.
//!
//! `reading` loads the tables of a keeper and finds their first row that isn't well formed. `rows`
//! and `stats` write the lines of loaded tables, by the pieces of `writing`: texts by their bytes,
//! which the columns hold whether they are UTF-8 or not. `answers` makes the text that answers a
//! question. `reports` opens a keeper by its path, gives it back and prints the answer; `migrating`
//! does so for a migration. `printing` prints a text and answers the status.
#![tactic(auto)]

mod answers;
mod migrating;
mod printing;
mod reading;
mod reports;
mod rows;
mod stats;
mod writing;

pub use answers::{Answer, Question};
pub use migrating::migrate;
pub use printing::{fault_status, tell, tell_bad_row, tell_made};
pub use reading::{ReportFault, read_report};
pub use reports::report;
pub use rows::{bad_row_line, row_lines};
pub use stats::stats_lines;
