//! What the program prints: the report of a check, the lines of faulty files, the lines of a
//! session. And what it reads of a session: control lines.
#![tactic(auto)]

mod controls;
mod fault_lines;
mod laws;
mod lines;
mod live_jobs;
mod names;
mod replies;
mod report;
mod watched;
mod words;

pub use controls::{Control, ControlFault, read_control};
pub use fault_lines::{check_line, limit_line, read_line, row_line};
pub use laws::{live_jobs_have_their_lines, versions_show_all_states};
pub use lines::{refusal_line, state_lines};
pub use live_jobs::{LiveJob, job_lines};
pub use replies::version_lines;
pub use report::report_lines;
pub use watched::{WatchFault, paused_line, watch_line};
