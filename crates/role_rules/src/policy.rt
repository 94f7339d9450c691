//! What a roles file says, and the decision on a request.
ghost use Rattle.std.specs.Prelude.{◌≡◌, ◌≤◌, Some, None, MatchOption};
ghost use Rattle.std.specs.Option.{option_copied, option_map};
ghost use Rattle.role_rules.specs.Decisions.{decided, granted, judged, listed, may_list, name_passes, sender};

use crate::role::{Role, is_same, may_ask};
use value_core::{ListOf, Text};

/// What a word of the file may ask for.
#[derive(Debug, Drop)]
pub struct Grant {
    pub role: Role,
    /// 1 to 256 bytes from 0x21 to 0x7e.
    pub word: ListOf<u8>,
    /// The nodes, inputs and operations that the word is good for; a word without names is good for
    /// all.
    pub names: ListOf<Text>,
}

/// What a roles file says.
#[derive(Debug, Drop)]
pub struct Policy {
    /// At most 256, no two of one word, in the order of the file.
    pub grants: ListOf<Grant>,
    /// The role of a sender without a word of the file.
    pub anyone: Option<Role>,
}

/// What a request asks for.
#[derive(Debug, Drop)]
pub struct Ask {
    /// The rule of its route, from 1 to 5.
    pub rule: u8,
    /// The node, input or operation that its route names.
    pub name: Option<Text>,
    /// Whether it is served to a word with names though it names nothing, as the list of nodes is.
    pub plain: bool,
}

/// The answer to an `Ask`.
#[derive(Clone, Copy, Debug, PartialEq, Eq)]
pub enum Decision {
    Allowed,
    /// The sender has no word of the file, and the file has no role for anyone.
    NoWord,
    /// The first rule that isn't met: the one that was asked for, 6 if the word isn't good for the
    /// name, 7 if the request names nothing and the word isn't good for all.
    Denied(u8),
}

fn find_grant<'a>(grants: &'a [Grant], word: &[u8]) -> Option<&'a Grant>
    ensures { option_copied result ≡ granted word.now grants.now }
{
    grants
        .iter()
        .find(|grant| is_same(grant.word.as_slice(), word))
}

/// Whether a name is among these.
fn is_among(names: &[Text], name: &Text) -> bool
    ensures { result ≡ listed name.now names.now }
{
    names.iter().any(|other| other.is(name))
}

/// Whether a word that is good for these names is good for a name.
fn passes_name(names: &[Text], name: &Text) -> bool
    ensures { result ≡ name_passes names.now name.now }
{
    names.is_empty() || is_among(names, name)
}

/// The role and the names of a sender with this word.
fn sender_of<'a>(policy: &'a Policy, word: Option<&[u8]>) -> Option<(Role, &'a [Text])>
    ensures { let word = option_map (λ w. w.now) word.entry in
        option_map (λ s. (s.0, s.1.now)) result ≡ sender policy.now word }
{
    let none: &[Text] = &[];
    let anyone = match policy.anyone {
        Some(role) => Some((role, none)),
        None => None,
    };
    let Some(word) = word else {
        return anyone;
    };
    match find_grant(policy.grants.as_slice(), word) {
        Some(grant) => Some((grant.role, grant.names.as_slice())),
        None => anyone,
    }
}

fn judge(role: Role, names: &[Text], ask: &Ask) -> Decision
    ensures { result ≡ judged role names.now ask.now }
{
    if !may_ask(ask.rule, role) {
        return Decision::Denied(ask.rule);
    }
    match &ask.name {
        Some(name) => {
            if passes_name(names, name) {
                Decision::Allowed
            } else {
                Decision::Denied(6)
            }
        }
        None => {
            if ask.plain || names.is_empty() {
                Decision::Allowed
            } else {
                Decision::Denied(7)
            }
        }
    }
}

/// Whether a sender with this word, or with none, may ask for this. Takes no memory.
pub fn decide(policy: &Policy, word: Option<&[u8]>, ask: &Ask) -> Decision
    requires rule { (1 ≤ ask.now.rule) × (ask.now.rule ≤ 5) }
    ensures { result ≡ decided policy.now (option_map (λ w. w.now) word.entry) ask.now }
{
    match sender_of(policy, word) {
        Some((role, names)) => judge(role, names, ask),
        None => Decision::NoWord,
    }
}

/// Whether a node is in the list of nodes that this sender gets. Takes no memory.
pub fn is_listed(policy: &Policy, word: Option<&[u8]>, node: &Text) -> bool
    ensures { result ≡ may_list policy.now (option_map (λ w. w.now) word.entry) node.now }
{
    match sender_of(policy, word) {
        Some((_, names)) => passes_name(names, node),
        None => false,
    }
}
