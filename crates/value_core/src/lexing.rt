//! All tokens of some bytes.
ghost use Rattle.std.specs.Prelude.{◌≡◌, IfOk};
ghost use Rattle.value_core.specs.Lexing.{lexed};

use crate::NoMemory;
use crate::list_of::ListOf;
use crate::token::{Next, Token, TokenFault, next_token};
use std::alloc::{AllocError, Global};

/// A token, and the offset of its first byte, counted from 0.
#[derive(Debug, Drop)]
pub struct TokenAt {
    pub token: Token,
    pub offset: usize,
}

/// How the tokens stop.
#[derive(Clone, Copy, Debug, PartialEq, Eq)]
pub enum Stop {
    /// At a byte that begins no token.
    Lex(usize),
    /// At the end of the bytes, whose number this is.
    End(usize),
}

/// The tokens up to where they stop.
#[derive(Debug, Drop)]
pub struct Tokens {
    pub tokens: ListOf<TokenAt>,
    pub stop: Stop,
}

/// The tokens of the bytes, up to the first offset at which none begins.
pub fn tokens_of(alloc: Global, bytes: &[u8]) -> Result<Tokens, NoMemory>
    ensures { IfOk result (λ t. t ≡ lexed bytes.now) }
{
    let mut tokens = ListOf::new(alloc);
    let mut from = 0;
    'tokens: loop {
        match next_token(alloc, bytes, from) {
            Err(fault) => match fault {
                TokenFault::NoMemory => return Err(AllocError),
                TokenFault::Lex(offset) => {
                    let stop = Stop::Lex(offset);
                    return Ok(Tokens { tokens, stop });
                }
            },
            Ok(next) => match next {
                Next::End => {
                    let stop = Stop::End(bytes.len());
                    return Ok(Tokens { tokens, stop });
                }
                Next::Found { token, offset, end } => {
                    tokens.push(TokenAt { token, offset })?;
                    from = end;
                }
            },
        }
    }
}
