//! The rules of a session and of the program: all that a session does, in order, and what each
//! command does. The definitions stand in specs/, over the tables of keeper_core, the texts of
//! report_text and the steps of core_rules.
#![tactic(auto)]

mod ends;

pub use ends::SessionEnd;
