//! A roles file.
ghost use Rattle.std.specs.Prelude.{◌≡◌, ◌≤◌, length, IfOk, IfErr, Ok, Err};
ghost use Rattle.role_rules.specs.Reading.{IsReadAs, grant_taken, has_word, lines_taken, roles_read, taken};
ghost use Rattle.role_rules.specs.Lines.{line_read};
ghost use Rattle.role_rules.specs.Pieces.{pieces_after};
ghost use Rattle.role_rules.specs.Files.{IsFaultOf, IsPolicyOf};
ghost use Rattle.role_rules.specs.declared.reading.RolesFault.TheVariants as fault;

use crate::line::{Line, read_line};
use crate::pieces::{cut, next_piece};
use crate::policy::{Grant, Policy};
use crate::role::{Role, is_same};
use std::alloc::{AllocError, Global};
use value_core::ListOf;

/// The greatest number of bytes of a roles file.
pub const ROLES_LIMIT: usize = 65536;

/// The greatest number of words of a roles file.
pub const WORDS_LIMIT: usize = 256;

/// What is wrong with a roles file. Lines are counted from 1.
#[derive(Clone, Copy, Debug, PartialEq, Eq)]
pub enum RolesFault {
    /// The file has more than `ROLES_LIMIT` bytes.
    TooLarge,
    /// This line is of no form.
    BadLine(u32),
    /// This line has one word more than `WORDS_LIMIT`.
    TooMany(u32),
    /// This line has a word that a line before has, or is the second for anyone.
    Duplicate(u32),
    /// Out of memory. Nothing is known of the file.
    NoMemory,
}

impl From<AllocError> for RolesFault {
    ghost from_gives = { λ _ e. e ≡ fault.NoMemory };

    fn from(_e: AllocError) -> RolesFault {
        RolesFault::NoMemory
    }
}

/// Whether a word is among the grants.
fn has_word(word: &[u8], grants: &[Grant]) -> bool
    ensures { result ≡ has_word word.now grants.now }
{
    grants
        .iter()
        .any(|grant| is_same(grant.word.as_slice(), word))
}

fn add_grant(policy: Policy, grant: Grant, number: u32) -> Result<Policy, RolesFault>
    ensures { IsReadAs result (grant_taken number policy grant) }
{
    let Policy { mut grants, anyone } = policy;
    if WORDS_LIMIT <= grants.len() {
        return Err(RolesFault::TooMany(number));
    }
    if has_word(grant.word.as_slice(), grants.as_slice()) {
        return Err(RolesFault::Duplicate(number));
    }
    grants.push(grant)?;
    Ok(Policy { grants, anyone })
}

/// The policy after one more line.
fn take_line(alloc: Global, policy: Policy, line: &[u8], number: u32) -> Result<Policy, RolesFault>
    ensures { IsReadAs result (taken number policy (line_read line.now)) }
{
    match read_line(alloc, line)? {
        None => Err(RolesFault::BadLine(number)),
        Some(said) => match said {
            Line::Nothing => Ok(policy),
            Line::Grants(grant) => add_grant(policy, grant, number),
            Line::Anyone(role) => match policy.anyone {
                Some(_) => Err(RolesFault::Duplicate(number)),
                None => {
                    let Policy { grants, .. } = policy;
                    let anyone = Some(role);
                    Ok(Policy { grants, anyone })
                }
            },
        },
    }
}

/// The policy after the lines after the first.
fn take_lines(alloc: Global, policy: Policy, rest: &[u8]) -> Result<Policy, RolesFault>
    requires { length rest.now ≤ 65536 }
    ensures { IsReadAs result (lines_taken 2 policy (pieces_after 10 rest.now)) }
{
    let mut so_far = policy;
    let mut left = rest;
    let mut number = 2;
    'lines: loop {
        match next_piece(left, b'\n') {
            None => return Ok(so_far),
            Some((line, after)) => {
                match take_line(alloc, so_far, line, number) {
                    Err(fault) => return Err(fault),
                    Ok(next) => so_far = next,
                }
                number += 1;
                left = after;
            }
        }
    }
}

/// The policy of the file, as it is read line by line.
fn take_file(alloc: Global, bytes: &[u8]) -> Result<Policy, RolesFault>
    ensures { IsReadAs result (roles_read bytes.now) }
{
    if ROLES_LIMIT < bytes.len() {
        return Err(RolesFault::TooLarge);
    }
    let nobody = Policy {
        grants: ListOf::new(alloc),
        anyone: None,
    };
    let (first, rest) = cut(bytes, b'\n');
    let policy = take_line(alloc, nobody, first, 1)?;
    take_lines(alloc, policy, rest)
}

/// Reads a roles file.
pub fn read_roles(alloc: Global, bytes: &[u8]) -> Result<Policy, RolesFault>
    ensures read { IsReadAs result (roles_read bytes.now) }
    ensures policy { IfOk result (IsPolicyOf bytes.now) }
    ensures fault { IfErr result (IsFaultOf bytes.now) }
{
    take_file(alloc, bytes)
}
