//! The values of options that aren't paths.
ghost use Rattle.std.specs.Prelude.{◌≡◌, option_map};
ghost use Rattle.std.specs.Str.{all_ascii_digits};
ghost use Rattle.value_core.specs.Tokens.{number_of};
ghost use Rattle.pipe_text.specs.Words.{level_word};
ghost use Rattle.command_words.specs.Options.{is_true};

use op_keys::Level;

fn is_digits(text: &str) -> bool
    ensures { result ≡ all_ascii_digits text.now }
{
    for b in text.as_bytes() {
        if !b.is_ascii_digit() {
            return false;
        }
    }
    true
}

/// The number that a text spells. It is `0`, or digits without a leading zero.
pub(crate) fn number(text: &str) -> Option<u64>
    ensures { result ≡ number_of text.now }
{
    let [first, rest @ ..] = text.as_bytes() else {
        return None;
    };
    if !is_digits(text) || *first == b'0' && !rest.is_empty() {
        return None;
    }
    match text.parse::<u64>() {
        Ok(n) => Some(n),
        Err(_) => None,
    }
}

/// The level of a word.
#[tactic(auto, unfolding(pipe_text::specs::Words::level_word))]
pub(crate) fn level(word: &str) -> Option<Level>
    ensures { result ≡ level_word word.now }
{
    match word {
        "harmless" => Some(Level::Harmless),
        "mostly_harmless" => Some(Level::MostlyHarmless),
        "average" => Some(Level::Average),
        "above_average" => Some(Level::AboveAverage),
        "dangerous" => Some(Level::Dangerous),
        _ => None,
    }
}

/// Whether a flag was given.
pub(crate) fn is_true(text: Option<&str>) -> bool
    ensures { result ≡ is_true (option_map (λ s. s.now) text.entry) }
{
    match text {
        Some(text) => text == "true",
        None => false,
    }
}
