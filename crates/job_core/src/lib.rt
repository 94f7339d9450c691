//! Live jobs: what is queued and what runs, and how they are settled for what is wanted.
#![tactic(auto)]

mod answers;
mod jobs;
mod live_jobs;
mod numbered;
mod plan;
mod row_look;
mod wants;

pub use answers::{Cancelled, JobFault, SettleFault};
pub use core_rules::{Job, Mark, Own, RowChange};
pub use jobs::Jobs;
pub use plan::JobsPlan;
