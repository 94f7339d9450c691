//! The words that the grammar asks for.
ghost use Rattle.std.specs.Prelude.{◌≡◌, List, ℕ, Option};
ghost use Rattle.pipe_text.specs.Words.{decl_word, value_word, op_word, period_word, side_word, level_word, body_word, fun_word, kind_word};

use op_keys::Level;
use term_core::FailKind;
use value_core::{Fun, Text};

/// What a word spells.
pub trait Keyword: Copy {
    /// What has these letters.
    ghost parsed: { List ℕ → Option Self };

    fn parse(name: &Text) -> Option<Self>
        ensures { result ≡ parsed name.now };
}

/// What a declaration begins with.
#[derive(Clone, Copy, Debug, PartialEq, Eq)]
pub enum DeclWord {
    Input,
    Pool,
    Client,
    Worker,
    Op,
    Node,
}

impl Keyword for DeclWord {
    ghost parsed = { decl_word };

    #[tactic(auto, unfolding(crate::specs::Words::decl_word))]
    fn parse(name: &Text) -> Option<DeclWord> {
        let word = name.as_str();
        if word == "input" {
            Some(DeclWord::Input)
        } else if word == "pool" {
            Some(DeclWord::Pool)
        } else if word == "client" {
            Some(DeclWord::Client)
        } else if word == "worker" {
            Some(DeclWord::Worker)
        } else if word == "op" {
            Some(DeclWord::Op)
        } else if word == "node" {
            Some(DeclWord::Node)
        } else {
            None
        }
    }
}

/// The word before the value of an input.
#[derive(Clone, Copy, Debug, PartialEq, Eq)]
pub enum ValueWord {
    Text,
    Num,
    List,
}

impl Keyword for ValueWord {
    ghost parsed = { value_word };

    #[tactic(auto, unfolding(crate::specs::Words::value_word))]
    fn parse(name: &Text) -> Option<ValueWord> {
        let word = name.as_str();
        if word == "text" {
            Some(ValueWord::Text)
        } else if word == "num" {
            Some(ValueWord::Num)
        } else if word == "list" {
            Some(ValueWord::List)
        } else {
            None
        }
    }
}

/// The kinds of operation.
#[derive(Clone, Copy, Debug, PartialEq, Eq)]
pub enum OpWord {
    Build,
    Output,
}

impl Keyword for OpWord {
    ghost parsed = { op_word };

    #[tactic(auto, unfolding(crate::specs::Words::op_word))]
    fn parse(name: &Text) -> Option<OpWord> {
        let word = name.as_str();
        if word == "build" {
            Some(OpWord::Build)
        } else if word == "output" {
            Some(OpWord::Output)
        } else {
            None
        }
    }
}

/// How often a schedule recurs.
#[derive(Clone, Copy, Debug, PartialEq, Eq)]
pub enum PeriodWord {
    Daily,
    Monthly,
}

impl Keyword for PeriodWord {
    ghost parsed = { period_word };

    #[tactic(auto, unfolding(crate::specs::Words::period_word))]
    fn parse(name: &Text) -> Option<PeriodWord> {
        let word = name.as_str();
        if word == "daily" {
            Some(PeriodWord::Daily)
        } else if word == "monthly" {
            Some(PeriodWord::Monthly)
        } else {
            None
        }
    }
}

/// The side of an offset.
#[derive(Clone, Copy, Debug, PartialEq, Eq)]
pub enum SideWord {
    East,
    West,
}

impl Keyword for SideWord {
    ghost parsed = { side_word };

    #[tactic(auto, unfolding(crate::specs::Words::side_word))]
    fn parse(name: &Text) -> Option<SideWord> {
        let word = name.as_str();
        if word == "east" {
            Some(SideWord::East)
        } else if word == "west" {
            Some(SideWord::West)
        } else {
            None
        }
    }
}

impl Keyword for Level {
    ghost parsed = { level_word };

    #[tactic(auto, unfolding(crate::specs::Words::level_word))]
    fn parse(name: &Text) -> Option<Level> {
        let word = name.as_str();
        if word == "harmless" {
            Some(Level::Harmless)
        } else if word == "mostly_harmless" {
            Some(Level::MostlyHarmless)
        } else if word == "average" {
            Some(Level::Average)
        } else if word == "above_average" {
            Some(Level::AboveAverage)
        } else if word == "dangerous" {
            Some(Level::Dangerous)
        } else {
            None
        }
    }
}

/// What a term begins with, after its bracket.
#[derive(Clone, Copy, Debug, PartialEq, Eq)]
pub enum BodyWord {
    Return,
    Fail,
    Input,
    Node,
    Var,
    Map,
    Pair,
    Bind,
    ListMap,
    ListIter,
    Catch,
    State,
    Gate,
    All,
    Build,
    Output,
}

impl Keyword for BodyWord {
    ghost parsed = { body_word };

    #[tactic(auto, unfolding(crate::specs::Words::body_word))]
    fn parse(name: &Text) -> Option<BodyWord> {
        let word = name.as_str();
        if word == "return" {
            Some(BodyWord::Return)
        } else if word == "fail" {
            Some(BodyWord::Fail)
        } else if word == "input" {
            Some(BodyWord::Input)
        } else if word == "node" {
            Some(BodyWord::Node)
        } else if word == "var" {
            Some(BodyWord::Var)
        } else if word == "map" {
            Some(BodyWord::Map)
        } else if word == "pair" {
            Some(BodyWord::Pair)
        } else if word == "bind" {
            Some(BodyWord::Bind)
        } else if word == "list_map" {
            Some(BodyWord::ListMap)
        } else if word == "list_iter" {
            Some(BodyWord::ListIter)
        } else if word == "catch" {
            Some(BodyWord::Catch)
        } else if word == "state" {
            Some(BodyWord::State)
        } else if word == "gate" {
            Some(BodyWord::Gate)
        } else if word == "all" {
            Some(BodyWord::All)
        } else if word == "build" {
            Some(BodyWord::Build)
        } else if word == "output" {
            Some(BodyWord::Output)
        } else {
            None
        }
    }
}

impl Keyword for FailKind {
    ghost parsed = { kind_word };

    #[tactic(auto, unfolding(crate::specs::Words::kind_word))]
    fn parse(name: &Text) -> Option<FailKind> {
        let word = name.as_str();
        if word == "text" {
            Some(FailKind::Text)
        } else if word == "num" {
            Some(FailKind::Num)
        } else if word == "unit" {
            Some(FailKind::Unit)
        } else if word == "list" {
            Some(FailKind::List)
        } else {
            None
        }
    }
}

impl Keyword for Fun {
    ghost parsed = { fun_word };

    #[tactic(auto, unfolding(crate::specs::Words::fun_word))]
    fn parse(name: &Text) -> Option<Fun> {
        let word = name.as_str();
        if word == "trim" {
            Some(Fun::Trim)
        } else if word == "lines" {
            Some(Fun::Lines)
        } else if word == "words" {
            Some(Fun::Words)
        } else if word == "join" {
            Some(Fun::Join)
        } else if word == "concat" {
            Some(Fun::Concat)
        } else if word == "length" {
            Some(Fun::Length)
        } else if word == "count" {
            Some(Fun::Count)
        } else if word == "number" {
            Some(Fun::Number)
        } else if word == "show" {
            Some(Fun::Show)
        } else if word == "add" {
            Some(Fun::Add)
        } else if word == "equal" {
            Some(Fun::Equal)
        } else if word == "at_most" {
            Some(Fun::AtMost)
        } else if word == "first" {
            Some(Fun::First)
        } else if word == "second" {
            Some(Fun::Second)
        } else if word == "describe" {
            Some(Fun::Describe)
        } else if word == "must" {
            Some(Fun::Must)
        } else {
            None
        }
    }
}
