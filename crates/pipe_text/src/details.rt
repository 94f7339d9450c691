//! The parts of declarations.
ghost use Rattle.std.specs.Prelude.{◌≡◌, ◌≤◌, IfOk};
ghost use Rattle.pipe_text.specs.inside.Readers.{Takes};
ghost use Rattle.pipe_text.specs.FileGrammar.{offset_of};
ghost use Rattle.pipe_text.specs.Files.{file_limits};
ghost use Rattle.pipe_text.specs.inside.Known.{op_with};
ghost use Rattle.pipe_text.specs.inside.FileReading.{optional_text_at, flag_at, value_after, value_at, placement_at, level_at, settings_at, offset_at, period_after, schedule_at, expiry_at, retention_at, run_at, op_at};

use crate::declaration::{InputValue, OpHead, OpParts, Placement, Retention, Settings};
use crate::fault::{LimitName, TakeError};
use crate::literals::{take_items, take_more_words};
use crate::taking::{
    is_at_keyword, take_any_number, take_keyword, take_mark, take_name, take_number, take_text,
    take_word,
};
use crate::words::{OpWord, PeriodWord, SideWord, ValueWord};
use op_keys::{Expiry, Level, OpDecl};
use std::alloc::Global;
use value_core::{ListOf, Stop, Text, TokenAt, Value};

/// The string after a word that may be left out.
fn take_optional_text<'a>(
    alloc: Global,
    letters: &str,
    stop: Stop,
    tokens: &'a [TokenAt],
) -> Result<(Option<Text>, &'a [TokenAt]), TakeError>
    ensures { Takes result (optional_text_at file_limits letters.now stop tokens.now) }
{
    if !is_at_keyword(letters, tokens) {
        return Ok((None, tokens));
    }
    let rest = take_keyword(letters, stop, tokens)?;
    let (text, rest) = take_text(alloc, stop, rest)?;
    Ok((Some(text), rest))
}

/// Whether a word is next, which is taken.
fn take_flag<'a>(
    letters: &str,
    stop: Stop,
    tokens: &'a [TokenAt],
) -> Result<(bool, &'a [TokenAt]), TakeError>
    ensures { Takes result (flag_at letters.now stop tokens.now) }
{
    if !is_at_keyword(letters, tokens) {
        return Ok((false, tokens));
    }
    let rest = take_keyword(letters, stop, tokens)?;
    Ok((true, rest))
}

fn take_value_after(
    alloc: Global,
    word: ValueWord,
    stop: Stop,
    tokens: &[TokenAt],
) -> Result<(InputValue, &[TokenAt]), TakeError>
    ensures { Takes result (value_after file_limits word stop tokens.now) }
{
    match word {
        ValueWord::Text => {
            let (text, rest) = take_text(alloc, stop, tokens)?;
            let (watch, rest) = take_optional_text(alloc, "watch", stop, rest)?;
            let value = Value::Words(text);
            Ok((InputValue { value, watch }, rest))
        }
        ValueWord::Num => {
            let (number, rest) = take_any_number(stop, tokens)?;
            let value = Value::Num(number);
            Ok((InputValue { value, watch: None }, rest))
        }
        ValueWord::List => {
            let rest = take_mark(b'[', stop, tokens)?;
            let (value, rest) = take_items(alloc, stop, rest)?;
            Ok((InputValue { value, watch: None }, rest))
        }
    }
}

/// The value of an input, after its name.
#[tactic(auto, unfolding(crate::specs::inside::FileReading::value_at))]
pub(crate) fn take_value(
    alloc: Global,
    stop: Stop,
    tokens: &[TokenAt],
) -> Result<(InputValue, &[TokenAt]), TakeError>
    ensures { Takes result (value_at file_limits stop tokens.now) }
{
    let (word, rest) = take_word::<ValueWord>(stop, tokens)?;
    take_value_after(alloc, word, stop, rest)
}

#[tactic(auto, unfolding(crate::specs::inside::FileReading::placement_at))]
fn take_placement(
    alloc: Global,
    stop: Stop,
    tokens: &[TokenAt],
) -> Result<(Placement, &[TokenAt]), TakeError>
    ensures { Takes result (placement_at file_limits stop tokens.now) }
{
    let rest = take_keyword("pool", stop, tokens)?;
    let (pool, rest) = take_name(alloc, stop, rest)?;
    let rest = take_keyword("client", stop, rest)?;
    let (client, rest) = take_name(alloc, stop, rest)?;
    let rest = take_keyword("cost", stop, rest)?;
    let (full, rest) = take_number(LimitName::Cost, stop, rest)?;
    let (cached, rest) = take_number(LimitName::Cost, stop, rest)?;
    let placement = Placement {
        pool,
        client,
        full,
        cached,
    };
    Ok((placement, rest))
}

/// The level, which is average if none is next.
fn take_level(stop: Stop, tokens: &[TokenAt]) -> Result<(Level, &[TokenAt]), TakeError>
    ensures { Takes result (level_at stop tokens.now) }
{
    if !is_at_keyword("level", tokens) {
        return Ok((Level::Average, tokens));
    }
    let rest = take_keyword("level", stop, tokens)?;
    take_word::<Level>(stop, rest)
}

#[tactic(auto, unfolding(crate::specs::inside::FileReading::settings_at))]
fn take_settings(
    alloc: Global,
    stop: Stop,
    tokens: &[TokenAt],
) -> Result<(Settings, &[TokenAt]), TakeError>
    ensures { Takes result (settings_at file_limits stop tokens.now) }
{
    let (hint, rest) = take_optional_text(alloc, "hint", stop, tokens)?;
    let (urgent, rest) = take_flag("urgent", stop, rest)?;
    let (level, rest) = take_level(stop, rest)?;
    let settings = Settings {
        hint,
        urgent,
        level,
    };
    Ok((settings, rest))
}

/// Minutes to the east.
fn offset_of(side: SideWord, minutes: u64) -> i32
    requires { minutes ≤ 1080 }
    ensures { result ≡ offset_of side minutes }
{
    match side {
        SideWord::East => minutes as i32,
        SideWord::West => -(minutes as i32),
    }
}

/// The side and the minutes of an offset.
fn take_offset(stop: Stop, tokens: &[TokenAt]) -> Result<(i32, &[TokenAt]), TakeError>
    ensures { Takes result (offset_at file_limits stop tokens.now) }
{
    let (side, rest) = take_word::<SideWord>(stop, tokens)?;
    let (minutes, rest) = take_number(LimitName::Offset, stop, rest)?;
    Ok((offset_of(side, minutes), rest))
}

fn take_period(
    word: PeriodWord,
    stop: Stop,
    tokens: &[TokenAt],
) -> Result<(Expiry, &[TokenAt]), TakeError>
    ensures { Takes result (period_after file_limits word stop tokens.now) }
{
    match word {
        PeriodWord::Daily => {
            let (minute, rest) = take_number(LimitName::Minute, stop, tokens)?;
            let (offset, rest) = take_offset(stop, rest)?;
            let minute = minute as u32;
            Ok((Expiry::Daily { minute, offset }, rest))
        }
        PeriodWord::Monthly => {
            let (day, rest) = take_number(LimitName::Day, stop, tokens)?;
            let (minute, rest) = take_number(LimitName::Minute, stop, rest)?;
            let (offset, rest) = take_offset(stop, rest)?;
            let day = day as u32;
            let minute = minute as u32;
            let expiry = Expiry::Monthly {
                day,
                minute,
                offset,
            };
            Ok((expiry, rest))
        }
    }
}

/// A schedule, after its word.
#[tactic(auto, unfolding(crate::specs::inside::FileReading::schedule_at))]
fn take_schedule(stop: Stop, tokens: &[TokenAt]) -> Result<(Expiry, &[TokenAt]), TakeError>
    ensures { Takes result (schedule_at file_limits stop tokens.now) }
{
    let (word, rest) = take_word::<PeriodWord>(stop, tokens)?;
    take_period(word, stop, rest)
}

/// When a result expires. A file of version 1 has no schedules.
#[tactic(auto, unfolding(crate::specs::inside::FileReading::expiry_at))]
fn take_expiry(
    version: u32,
    stop: Stop,
    tokens: &[TokenAt],
) -> Result<(Expiry, &[TokenAt]), TakeError>
    ensures { Takes result (expiry_at file_limits version stop tokens.now) }
{
    if is_at_keyword("valid_for", tokens) {
        let rest = take_keyword("valid_for", stop, tokens)?;
        let (number, rest) = take_number(LimitName::ValidFor, stop, rest)?;
        return Ok((Expiry::After(number), rest));
    }
    if version == 2 && is_at_keyword("schedule", tokens) {
        let rest = take_keyword("schedule", stop, tokens)?;
        return take_schedule(stop, rest);
    }
    Ok((Expiry::Never, tokens))
}

#[tactic(auto, unfolding(crate::specs::inside::FileReading::retention_at))]
fn take_retention(
    version: u32,
    kind: OpWord,
    stop: Stop,
    tokens: &[TokenAt],
) -> Result<(Retention, &[TokenAt]), TakeError>
    ensures { Takes result (retention_at file_limits version kind stop tokens.now) }
{
    match kind {
        OpWord::Build => {
            let (expiry, rest) = take_expiry(version, stop, tokens)?;
            let (latched, rest) = take_flag("latched", stop, rest)?;
            Ok((Retention { expiry, latched }, rest))
        }
        OpWord::Output => {
            let retention = Retention {
                expiry: Expiry::Never,
                latched: false,
            };
            Ok((retention, tokens))
        }
    }
}

/// The words of a command.
#[tactic(auto, unfolding(crate::specs::inside::FileReading::run_at))]
fn take_run(
    alloc: Global,
    stop: Stop,
    tokens: &[TokenAt],
) -> Result<(ListOf<Text>, &[TokenAt]), TakeError>
    ensures { Takes result (run_at file_limits stop tokens.now) }
{
    let rest = take_keyword("run", stop, tokens)?;
    let (first, rest) = take_text(alloc, stop, rest)?;
    take_more_words(alloc, first, stop, rest)
}

/// The operation of these parts.
fn op_of(head: OpHead, parts: OpParts) -> OpDecl
    ensures { result ≡ op_with head parts }
{
    let OpHead { name, kind } = head;
    let OpParts {
        placement,
        settings,
        retention,
        no_cancel,
        words,
    } = parts;
    OpDecl {
        name,
        output: kind == OpWord::Output,
        pool: placement.pool,
        client: placement.client,
        full: placement.full,
        cached: placement.cached,
        hint: settings.hint,
        urgent: settings.urgent,
        level: settings.level,
        expiry: retention.expiry,
        latched: retention.latched,
        no_cancel,
        words,
    }
}

/// An operation after its kind.
#[tactic(auto, unfolding(crate::specs::inside::FileReading::op_at))]
pub(crate) fn take_op(
    alloc: Global,
    version: u32,
    head: OpHead,
    stop: Stop,
    tokens: &[TokenAt],
) -> Result<(OpDecl, &[TokenAt]), TakeError>
    ensures { Takes result (op_at file_limits version head.name head.kind stop tokens.now) }
{
    let (placement, rest) = take_placement(alloc, stop, tokens)?;
    let (settings, rest) = take_settings(alloc, stop, rest)?;
    let (retention, rest) = take_retention(version, head.kind, stop, rest)?;
    let (no_cancel, rest) = take_flag("no_cancel", stop, rest)?;
    let (words, rest) = take_run(alloc, stop, rest)?;
    let parts = OpParts {
        placement,
        settings,
        retention,
        no_cancel,
        words,
    };
    Ok((op_of(head, parts), rest))
}
