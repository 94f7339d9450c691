//! What is stored of a state.
use sched_rows::Row;
use std::marker::Model;
use value_core::{ListOf, Text, Value};

/// What is stored of a state, as an opening gets it. Of rows with one name and key the first counts,
/// and of inputs with one name too.
#[derive(Drop)]
pub struct Durable {
    /// Inputs' names and values.
    pub inputs: ListOf<(Text, Value)>,
    pub rows: ListOf<Row>,
    /// The number of the next job.
    pub next: u64,
}

impl Model for Durable {
    ghost use Rattle.core_rules.specs.Codes.{durable_code};
    ghost use Rattle.core_rules.specs.Openings.{Durable as Seen, rows_in};

    ghost Value = { Seen };

    ghost coded = { durable_code };

    ghost view = { λ d. record { inputs = d.inputs; rows = rows_in d.rows; next = d.next } };
}
