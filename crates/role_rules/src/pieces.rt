//! Bytes, cut at a separator.
ghost use Rattle.std.specs.Prelude.{◌≡◌, ◌+◌, ◌<◌, ◌∷◌, [], length, MatchOption, IfNone, IfSome, not, ◌==◌};
ghost use Rattle.std.specs.List.{position_or_len};
ghost use Rattle.role_rules.specs.Pieces.{IsCut, pieces, pieces_after};

/// How many bytes come before the first separator.
fn piece_len(bytes: &[u8], separator: u8) -> usize
    ensures { result ≡ position_or_len (λ b. b == separator) bytes.now }
{
    bytes.iter().take_while(|b| **b != separator).count()
}

/// The first piece, and what follows it: a separator and the other pieces, or nothing.
pub(crate) fn cut(bytes: &[u8], separator: u8) -> (&[u8], &[u8])
    ensures pieces { IsCut separator (pieces separator bytes.now) result.0.now result.1.now }
    ensures size { length result.0.now + length result.1.now ≡ length bytes.now }
{
    bytes.split_at(piece_len(bytes, separator))
}

/// The next piece after a separator, and what follows it.
pub(crate) fn next_piece(rest: &[u8], separator: u8) -> Option<(&[u8], &[u8])>
    ensures none { IfNone result (pieces_after separator rest.now ≡ []) }
    ensures some { let pieces = pieces_after separator rest.now in
        IfSome result (λ x. IsCut separator pieces x.0.now x.1.now) }
    ensures shorter { MatchOption result (rest.now ≡ []) (λ x. length x.1.now < length rest.now) }
{
    match rest {
        [] => None,
        [_, bytes @ ..] => Some(cut(bytes, separator)),
    }
}
