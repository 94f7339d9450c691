//! A line of a roles file.
ghost use Rattle.std.specs.Prelude.{◌≡◌, IfOk};
ghost use Rattle.std.specs.List.{list_all};
ghost use Rattle.role_rules.specs.Pieces.{pieces_after};
ghost use Rattle.role_rules.specs.Lines.{anyone_read, grant_read, is_visible, is_word, line_read, name_read, names_read, scope_read};

use crate::pieces::{cut, next_piece};
use crate::policy::Grant;
use crate::role::{Role, is_same, role_of};
use std::alloc::Global;
use value_core::{ListOf, NoMemory, Text, is_name};

/// The greatest number of bytes of a word.
pub const WORD_LIMIT: usize = 256;

/// The greatest number of names for a word.
pub const NAMES_LIMIT: usize = 64;

/// What a line says.
#[derive(Debug, Drop)]
pub enum Line {
    /// It is empty or a comment.
    Nothing,
    Grants(Grant),
    /// The role of a sender without a word of the file.
    Anyone(Role),
}

fn is_visible(b: u8) -> bool
    ensures { result ≡ is_visible b }
{
    0x21 <= b && b <= 0x7e
}

fn are_visible(bytes: &[u8]) -> bool
    ensures { result ≡ list_all is_visible bytes.now }
{
    bytes.iter().all(|b| is_visible(*b))
}

fn is_word(bytes: &[u8]) -> bool
    ensures { result ≡ is_word bytes.now }
{
    !bytes.is_empty() && bytes.len() <= WORD_LIMIT && are_visible(bytes)
}

/// The text of a name.
#[tactic(auto, using(value_core::proofs::Scans::name_no_nul))]
fn name_text(alloc: Global, bytes: &[u8]) -> Result<Option<Text>, NoMemory>
    ensures { IfOk result (λ o. o ≡ name_read bytes.now) }
{
    if !is_name(bytes) {
        return Ok(None);
    }
    match str::from_utf8(bytes) {
        Ok(text) => Ok(Some(Text::of(alloc, text)?)),
        Err(_) => Ok(None),
    }
}

/// The names after `on`.
fn read_names(alloc: Global, rest: &[u8]) -> Result<Option<ListOf<Text>>, NoMemory>
    ensures { IfOk result (λ o. o ≡ names_read (pieces_after 32 rest.now)) }
{
    let mut names = ListOf::new(alloc);
    let mut left = rest;
    'names: loop {
        let Some((piece, after)) = next_piece(left, b' ') else {
            let is_empty = names.len() == 0;
            return Ok(if is_empty { None } else { Some(names) });
        };
        if names.len() == NAMES_LIMIT {
            return Ok(None);
        }
        match name_text(alloc, piece)? {
            Some(name) => names.push(name)?,
            None => return Ok(None),
        }
        left = after;
    }
}

/// What follows a word: nothing, or `on` and names.
fn read_scope(alloc: Global, rest: &[u8]) -> Result<Option<ListOf<Text>>, NoMemory>
    ensures { IfOk result (λ o. o ≡ scope_read (pieces_after 32 rest.now)) }
{
    match next_piece(rest, b' ') {
        None => Ok(Some(ListOf::new(alloc))),
        Some((on, rest)) => {
            if is_same(on, "on".as_bytes()) {
                read_names(alloc, rest)
            } else {
                Ok(None)
            }
        }
    }
}

/// What follows a role.
fn read_grant(alloc: Global, role: Role, rest: &[u8]) -> Result<Option<Line>, NoMemory>
    ensures { IfOk result (λ o. o ≡ grant_read role (pieces_after 32 rest.now)) }
{
    let Some((word, rest)) = next_piece(rest, b' ') else {
        return Ok(None);
    };
    if !is_word(word) {
        return Ok(None);
    }
    match read_scope(alloc, rest)? {
        None => Ok(None),
        Some(names) => {
            let word = ListOf::from_vec(Vec::from_slice(alloc, word)?);
            Ok(Some(Line::Grants(Grant { role, word, names })))
        }
    }
}

/// What follows `anyone`.
fn read_anyone(rest: &[u8]) -> Option<Line>
    ensures { result ≡ anyone_read (pieces_after 32 rest.now) }
{
    let (role, rest) = next_piece(rest, b' ')?;
    match next_piece(rest, b' ') {
        Some(_) => None,
        None => match role_of(role) {
            Some(role) => Some(Line::Anyone(role)),
            None => None,
        },
    }
}

/// What a line says, or nothing if it is of no form.
pub(crate) fn read_line(alloc: Global, line: &[u8]) -> Result<Option<Line>, NoMemory>
    ensures { IfOk result (λ o. o ≡ line_read line.now) }
{
    match line {
        [] => return Ok(Some(Line::Nothing)),
        [first, ..] => {
            if *first == b'#' {
                return Ok(Some(Line::Nothing));
            }
        }
    }
    let (first, rest) = cut(line, b' ');
    if is_same(first, "anyone".as_bytes()) {
        return Ok(read_anyone(rest));
    }
    match role_of(first) {
        Some(role) => read_grant(alloc, role, rest),
        None => Ok(None),
    }
}
