// How parsing and reading end: why a source is not parsed, and how many records there are.
#![tactic(auto)]

ghost use Rattle.std.specs.Prelude.{◌≡◌};
ghost use Rattle.ends.specs.declared.ParseError.TheVariants.{NotLexed, Refused};
ghost use Rattle.ends.specs.Rows.{row_of_parse_error};

use cursor::ParseRefusal;
use lex::LexError;
use records::refusals::{Cause, Refusal};

// How many records there are of each table; by default none.
#[derive(Clone, Copy, Default)]
pub struct Counts {
    pub tokens: u32,
    pub lines: u32,
    pub exprs: u32,
    pub types: u32,
}

// How many records there are of each table that reading fills; work has none. By default there is none of any.
#[derive(Clone, Copy, Default)]
pub struct ReadCounts {
    pub parsed: Counts,
    pub names: u32,
    pub nodes: u32,
    pub errors: u32,
}

// Why a source is not parsed: its tokens' error, or the grammar's refusal.
#[derive(Clone, Copy)]
pub enum ParseError {
    NotLexed(LexError),
    Refused(ParseRefusal),
}

impl From<LexError> for ParseError {
    ghost from_gives = { λ e r. r ≡ NotLexed e };

    fn from(error: LexError) -> ParseError {
        ParseError::NotLexed(error)
    }
}

impl From<ParseRefusal> for ParseError {
    ghost from_gives = { λ x r. r ≡ Refused x };

    fn from(refusal: ParseRefusal) -> ParseError {
        ParseError::Refused(refusal)
    }
}

impl Cause for ParseError {
    ghost row_of = { row_of_parse_error };

    fn row(self) -> Refusal {
        match self {
            ParseError::NotLexed(error) => error.row(),
            ParseError::Refused(refusal) => refusal.row(),
        }
    }
}
