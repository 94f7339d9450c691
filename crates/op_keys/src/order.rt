//! Orders for workers, and how they end.
ghost use Rattle.std.specs.Prelude.{◌≡◌, ◌≤◌, List, ℕ, length, map, option_map, IfOk, IfErr, OnOk, true};
ghost use Rattle.std.specs.String.{string_bytes};
ghost use Rattle.op_keys.specs.Filling.{filled};
ghost use Rattle.op_keys.specs.Orders.{order_limit, order_words, order_fits, first_too_long, capped, length_refused};
ghost use Rattle.value_core.specs.Texts.{HasNoNul};

use crate::declarations::OpDecl;
use crate::filling::{fill, filled_len};
use std::alloc::Global;
use std::marker::Model;
use value_core::{ListOf, NoMemory, Text};

/// The greatest number of bytes of a word of an order.
pub const ORDER_WORD_LIMIT: usize = 100_000;

/// UTF-8 without NUL, of at most `ORDER_WORD_LIMIT` bytes.
#[derive(Debug, Drop)]
pub struct Word {
    word: String,
}

impl Model for Word {
    ghost Value = { List ℕ };

    ghost view = { λ w. string_bytes w.word };

    ghost invariant = { λ w. HasNoNul (string_bytes w.word)
        × (length (string_bytes w.word) ≤ order_limit) };
}

/// What a worker is asked to run, for one job.
#[derive(Drop)]
pub struct Order {
    pub job: u64,
    /// The worker's number in file order.
    pub worker: u32,
    /// The operation's number in file order.
    pub op: u32,
    pub key: Text,
    pub value: Text,
    pub words: ListOf<Word>,
}

/// How the run of an order ended.
#[derive(Drop)]
pub enum Exit {
    /// The process ended, by a signal if it has no code.
    Ended {
        code: Option<u8>,
        output: ListOf<u8>,
    },
    /// It could not be run.
    Fault,
}

/// Why an order has no words.
#[derive(Debug, Drop)]
pub enum OrderFault {
    /// A word beyond the limit, with its length.
    WordTooLong(usize),
    NoMemory,
}

impl From<NoMemory> for OrderFault {
    ghost use Rattle.op_keys.specs.declared.order.OrderFault.TheVariants.{NoMemory};

    ghost from_gives = { λ _ e. e ≡ NoMemory };

    fn from(_e: NoMemory) -> OrderFault {
        OrderFault::NoMemory
    }
}

impl Word {
    /// A word with these bytes.
    pub fn of(alloc: Global, text: &str) -> Result<Word, NoMemory>
        requires no_nul { HasNoNul text.now }
        requires short { length text.now ≤ order_limit }
        ensures { IfOk result (λ w. w ≡ text.now) }
    {
        let word = String::from_str(alloc, text)?;
        Ok(Word { word })
    }

    /// The word itself.
    pub fn as_str(&self) -> &str
        ensures bytes { result.now ≡ self.now }
        ensures no_nul { HasNoNul self.now }
        ensures short { length self.now ≤ order_limit }
    {
        self.word.as_str()
    }
}

/// The length of the first word beyond the limit.
fn too_long(templates: &[Text], key: &Text, value: &Text) -> Option<usize>
    ensures { let words = map (filled key.now value.now) templates.now in
        result ≡ option_map capped (first_too_long words) }
{
    for template in templates {
        let len = filled_len(template.as_str(), key.as_str(), value.as_str());
        if ORDER_WORD_LIMIT < len {
            return Some(len);
        }
    }
    None
}

/// Whether each word of the order is within the limit. Allocates nothing.
pub fn order_fits(decl: &OpDecl, key: &Text, value: &Text) -> bool
    ensures { result ≡ order_fits decl.now key.now value.now }
{
    too_long(decl.words.as_slice(), key, value).is_none()
}

fn word_of(alloc: Global, template: &Text, key: &Text, value: &Text) -> Result<Word, NoMemory>
    requires { length (filled key.now value.now template.now) ≤ order_limit }
    ensures { IfOk result (λ w. w ≡ filled key.now value.now template.now) }
{
    let word = fill(alloc, template.as_str(), key.as_str(), value.as_str())?;
    Ok(Word { word })
}

fn filled_words(
    alloc: Global,
    templates: &[Text],
    key: &Text,
    value: &Text,
) -> Result<ListOf<Word>, NoMemory>
    requires { first_too_long (map (filled key.now value.now) templates.now) ≡ None }
    ensures { IfOk result (λ ws. ws ≡ map (filled key.now value.now) templates.now) }
{
    let mut words = ListOf::new(alloc);
    for template in templates {
        words.push(word_of(alloc, template, key, value)?)?;
    }
    Ok(words)
}

/// The words of the order for a key and a value. No word is built if one is too long.
pub fn words_of(
    alloc: Global,
    decl: &OpDecl,
    key: &Text,
    value: &Text,
) -> Result<ListOf<Word>, OrderFault>
    ensures words { IfOk result (λ ws. ws ≡ order_words decl.now key.now value.now) }
    ensures fits { OnOk result (order_fits decl.now key.now value.now ≡ true) }
    ensures too_long { let words = order_words decl.now key.now value.now in
        length_refused result ≡ option_map capped (first_too_long words) }
{
    let templates = decl.words.as_slice();
    if let Some(len) = too_long(templates, key, value) {
        return Err(OrderFault::WordTooLong(len));
    }
    Ok(filled_words(alloc, templates, key, value)?)
}

/// The hint of the order for a key and a value, of any length, if one is declared.
pub fn hint_of(
    alloc: Global,
    decl: &OpDecl,
    key: &Text,
    value: &Text,
) -> Result<Option<Text>, NoMemory>
    ensures { IfOk result (λ h. h ≡ option_map (filled key.now value.now) decl.now.hint) }
{
    match &decl.hint {
        Some(template) => {
            let hint = fill(alloc, template.as_str(), key.as_str(), value.as_str())?;
            Ok(Some(Text::from_string(hint)))
        }
        None => Ok(None),
    }
}
