//! What a visit reads, and whether it is known to differ now.
ghost use Rattle.std.specs.Prelude.{◌≡◌, ◌<◌, ◌^◌, ◌&&◌, [], not, length, map, slice_get};
ghost use Rattle.std.specs.Prelude.{Some, None, IfOk};
ghost use Rattle.std.specs.Option.{option_copied, option_map};
ghost use Rattle.value_core.specs.Codes.{value_code};
ghost use Rattle.value_core.specs.Parts.{text_in};
ghost use Rattle.value_core.specs.Same.{same};
ghost use Rattle.term_core.specs.Codes.{entry_code};
ghost use Rattle.term_core.specs.Evaluation.{fits, state_or_unit, triple_of, value_or_unit};
ghost use Rattle.term_core.specs.Views.{context_in};
ghost use Rattle.term_core.specs.declared.program.Term.{out-Term};
ghost use Rattle.visit_rules.specs.KnownChanges.{found_entry, has_moved, is_named, is_other, known_in};
ghost use Rattle.visit_rules.specs.Tables.{IsSmall, build_read, first_state, lookup_read};
ghost use Rattle.visit_rules.specs.Tables.{output_read, reading, second_state};

use crate::changes::Looked;
use crate::setting::Setting;
use crate::visit::Read;
use op_keys::index_of;
use std::alloc::Global;
use term_core::{Context, Entries, Entry, Term, has_short_words};
use value_core::{ListOf, NoMemory, State, Text, Triple, Value};

/// Whether a number is in the list.
fn is_named(numbers: &[u32], number: u32) -> bool
    ensures { result ≡ is_named numbers.now number }
{
    numbers.iter().any(|named| *named == number)
}

/// Whether an input has another value.
fn is_input_other(values: &[Value], place: u32, value: &Value) -> bool
    ensures { result ≡
        not (same value_code (value_or_unit (slice_get values.now place)) value.now) }
{
    let place = place as usize;
    if place < values.len() {
        !values[place].is(value)
    } else {
        let unit = Value::Unit;
        !unit.is(value)
    }
}

/// The entry that was looked up for a triple.
fn find_looked<'a>(looked: &'a [Looked], triple: &Triple) -> Option<&'a Entry>
    ensures { option_copied result ≡ found_entry looked.now triple.now }
{
    for one in looked {
        if one.triple.is(triple) {
            return Some(&one.entry);
        }
    }
    None
}

/// Whether what was read is known to differ now.
pub fn is_changed<E>(read: &Read, setting: &Setting<'_, E>) -> bool
    ensures { result ≡ known_in setting.now read.now }
{
    match read {
        Read::Nothing => false,
        Read::Input { place, value } => {
            is_named(setting.changed.inputs, *place)
                && is_input_other(setting.context.inputs, *place, value)
        }
        Read::Node { place, state: _ } => {
            let place = *place as usize;
            place < setting.changed.moved.len() && setting.changed.moved[place]
        }
        Read::Lookup { triple, entry } => match find_looked(setting.changed.looked, triple) {
            Some(now) => !now.is(entry),
            None => false,
        },
    }
}

/// The value of an input.
fn input_value(alloc: Global, values: &[Value], place: usize) -> Result<Value, NoMemory>
    ensures { IfOk result (λ v. v ≡ value_or_unit (slice_get values.now place)) }
{
    if place < values.len() {
        values[place].copy(alloc)
    } else {
        Ok(Value::Unit)
    }
}

/// The state at a place, or unit's.
fn state_at(alloc: Global, states: &[State], place: usize) -> Result<State, NoMemory>
    ensures { IfOk result (λ s. s ≡ state_or_unit (slice_get states.now place)) }
{
    if place < states.len() {
        states[place].copy(alloc)
    } else {
        Ok(State::Fine(Value::Unit))
    }
}

/// The lookup of a triple.
fn look_up<E: Entries>(
    alloc: Global,
    setting: &Setting<'_, E>,
    triple: Triple,
) -> Result<Read, NoMemory>
    ensures { IfOk result (λ r. r ≡ lookup_read (context_in E.world setting.now.context) triple) }
{
    if !has_short_words(setting.context.program.ops.as_slice(), &triple) {
        return Ok(Read::Nothing);
    }
    let entry = setting.context.entries.entry(alloc, &triple)?;
    Ok(Read::Lookup { triple, entry })
}

/// The text of a value, the empty one of any other value.
fn text_of(alloc: Global, value: &Value) -> Result<Text, NoMemory>
    ensures { IfOk result (λ t. t ≡ text_in value.now) }
{
    match value {
        Value::Words(text) => text.copy(alloc),
        _ => Ok(Text::new(alloc)),
    }
}

/// The lookup of a build's key.
fn look_up_build<E: Entries>(
    alloc: Global,
    setting: &Setting<'_, E>,
    op: &Text,
    key: &State,
) -> Result<Read, NoMemory>
    requires { length setting.now.context.program.now.ops < 2 ^ 32 }
    ensures { let context = context_in E.world setting.now.context in
        IfOk result (λ r. r ≡ build_read context op.now key.now) }
{
    match key {
        State::Fine(key) => {
            let op = index_of(setting.context.program.ops.as_slice(), op.as_str()) as u32;
            let key = text_of(alloc, key)?;
            let value = Text::new(alloc);
            look_up(alloc, setting, Triple { op, key, value })
        }
        _ => Ok(Read::Nothing),
    }
}

/// The lookup of an output's key and value.
fn look_up_output<E: Entries>(
    alloc: Global,
    setting: &Setting<'_, E>,
    op: &Text,
    key: &State,
    value: &State,
) -> Result<Read, NoMemory>
    requires { length setting.now.context.program.now.ops < 2 ^ 32 }
    ensures { IfOk result (λ r. r ≡
        output_read (context_in E.world setting.now.context) op.now key.now value.now) }
{
    match key {
        State::Fine(key) => match value {
            State::Fine(value) => {
                let op = index_of(setting.context.program.ops.as_slice(), op.as_str()) as u32;
                let key = text_of(alloc, key)?;
                let value = text_of(alloc, value)?;
                look_up(alloc, setting, Triple { op, key, value })
            }
            _ => Ok(Read::Nothing),
        },
        _ => Ok(Read::Nothing),
    }
}

/// What a term reads, by the states of its parts.
pub fn reading<E: Entries>(
    alloc: Global,
    term: &Term,
    setting: &Setting<'_, E>,
    parts: &[State],
) -> Result<Read, NoMemory>
    requires { IsSmall setting.now.context.program.now }
    ensures { IfOk result (λ r. r ≡
        reading (context_in E.world setting.now.context) (out-Term term.now) parts.now) }
{
    match term {
        Term::Input(name) => {
            let place = index_of(setting.context.program.inputs.as_slice(), name.as_str());
            let value = input_value(alloc, setting.context.inputs, place)?;
            let place = place as u32;
            Ok(Read::Input { place, value })
        }
        Term::Node(name) => {
            let place = index_of(setting.context.program.nodes.as_slice(), name.as_str());
            let state = state_at(alloc, setting.context.earlier, place)?;
            let place = place as u32;
            Ok(Read::Node { place, state })
        }
        Term::Build { op, .. } => {
            let key = state_at(alloc, parts, 0)?;
            look_up_build(alloc, setting, op, &key)
        }
        Term::Output { op, .. } => {
            let key = state_at(alloc, parts, 0)?;
            let value = state_at(alloc, parts, 1)?;
            look_up_output(alloc, setting, op, &key, &value)
        }
        _ => Ok(Read::Nothing),
    }
}
