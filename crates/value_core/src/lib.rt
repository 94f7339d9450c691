//! Values, states and tokens, the base of all crates above.
//!
//! `value`, `text`, `list_of` and `state` have the types, `comparing`, `copying`, `kinds` and
//! `weighing` what is asked of a value, `names` the form of names, `printing` the printed forms, `token`, `strings`,
//! `numerals`, `blanks` and `lexing` the tokens of bytes, `literal` the values that bytes spell,
//! `function`, `applying`, `parts` and `cutting` the functions, `steps` a counter for proofs about
//! work.
#![tactic(auto)]

use std::alloc::AllocError;

mod applying;
mod blanks;
mod bytes;
mod comparing;
mod copying;
mod cutting;
mod function;
mod kinds;
mod lexing;
mod list_of;
mod literal;
mod names;
mod numerals;
mod order;
mod parts;
mod printing;
mod state;
mod steps;
mod strings;
mod text;
mod token;
mod value;
mod weighing;

pub use comparing::same_law;
pub use function::{Applied, Fun, apply_fn, kind_law};
pub use kinds::{is_kind, literal_kind};
pub use lexing::{Stop, TokenAt, Tokens, tokens_of};
pub use list_of::ListOf;
pub use literal::{LiteralFault, literal_in, read_literal};
pub use names::{is_name, is_text};
pub use printing::{text_of, write_text, write_value};
pub use state::{Published, Stage, State, Triple};
pub use steps::Steps;
pub use strings::{Mode, Step, string_law};
pub use text::{TEXT_LIMIT, Text, TextFault};
pub use token::{NAME_LIMIT, Next, Token, TokenFault, next_token};
pub use value::{Kind, LIST_LIMIT, Outcome, Value};
pub use weighing::{WEIGHT_LIMIT, outweighs, weight};

/// Out of memory: the error of each call that allocates and has no other.
pub type NoMemory = AllocError;
