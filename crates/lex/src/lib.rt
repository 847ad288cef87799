// The lexer: the Rust's `lex_all`, on bytes and a lent table.
#![tactic(auto)]

ghost use Rattle.std.specs.Prelude.{◌≡◌, [], ◌+◌, ◌*◌, ◌<◌, ◌≤◌, length, drop};
ghost use Rattle.records.specs.Limits.{source_limit, record_limit, token_width};
ghost use Rattle.tables.specs.Tables.{table_of, written};
ghost use Rattle.matches.specs.Longest.{lex_at};
ghost use Rattle.records.specs.Refusals.{refusal_row as row_with};
ghost use Rattle.lex.specs.Tokens.{lexing, token_table, lex_all, leaves, row_of_lex_error};
ghost use Rattle.lex.specs.Code.{next_of, token_record, table_next};

use matches::Lexed;
use records::kinds::TokenKind;
use records::limits::Limits;
use records::numbers::ByteOffset;
use records::refusals::{Cause, Refusal};
use records::{Span, TokenRecord};

// Why a source has no tokens, in the order of the table of refusals: a table too short, a source too long, the first byte of
// an ill-formed sequence, a byte where nothing matches, the start of a 1,025th token.
#[derive(Clone, Copy)]
pub enum LexError {
    ShortTable,
    LongSource,
    NotUtf8(ByteOffset),
    NoToken(ByteOffset),
    TooManyTokens(ByteOffset),
}

// A row of the table of refusals.
fn row(no: u32, at: ByteOffset) -> Refusal
    ensures { result ≡ row_with no at.0 0 }
{
    Refusal {
        no,
        value: 0,
        place: at.0 as usize,
    }
}

impl Cause for LexError {
    ghost row_of = { row_of_lex_error };

    fn row(self) -> Refusal {
        match self {
            LexError::ShortTable => row(Refusal::SHORT_TABLE, ByteOffset(0)),
            LexError::LongSource => row(Refusal::LONG_SOURCE, ByteOffset(0)),
            LexError::NotUtf8(at) => row(Refusal::NOT_UTF8, at),
            LexError::NoToken(at) => row(Refusal::NO_TOKEN, at),
            LexError::TooManyTokens(at) => row(Refusal::TOO_MANY_TOKENS, at),
        }
    }
}

// Bytes of a source.
const SOURCE_LIMIT: usize = Limits::SOURCE as usize;

// Sets the records of a token table that has room to zero.
fn clear_tokens(tokens: &mut [u32])
    requires { record_limit * token_width ≤ length tokens.old }
    ensures { tokens.new ≡ table_of token_width [] tokens.old }
{
    tables::clear(tokens, TokenRecord::WORDS);
}

// The record of a token.
fn token_record(kind: TokenKind, at: usize, n: usize) -> TokenRecord
    requires { (at ≤ source_limit) × (n ≤ source_limit) }
    ensures { result ≡ token_record kind at n }
{
    TokenRecord {
        kind,
        span: Span {
            start: ByteOffset(at as u32),
            len: n as u32,
        },
    }
}

// Takes the token or the skip at `at`, with `count` tokens before it: where lexing goes on, and how many there are then.
fn lex_next(
    source: &[u8],
    tokens: &mut [u32],
    at: usize,
    count: u32,
) -> Result<(usize, u32), LexError>
    requires { (at < length source.now) × (length source.now ≤ source_limit) }
    ensures next { result ≡ next_of (lex_at (drop at source.now)) at count }
    ensures table { tokens.new ≡ table_next (lex_at (drop at source.now)) at count tokens.old }
{
    match matches::lex_one(&source[at..]) {
        Lexed::NoMatch => Err(LexError::NoToken(ByteOffset(at as u32))),
        Lexed::Skip(n) => Ok((at + n, count)),
        Lexed::Token(kind, n) => {
            if Limits::RECORDS <= count {
                return Err(LexError::TooManyTokens(ByteOffset(at as u32)));
            }
            tables::write_record(tokens, count + 1, token_record(kind, at, n));
            Ok((at + n, count + 1))
        }
    }
}

// The tokens of a text as records in a table. It asks for what the layer above has tested: refusals 1 and 2. (Refusal 3 is
// not needed: a byte of a longer character is in no row but a comment's.)
pub fn lex_text(source: &[u8], tokens: &mut [u32]) -> Result<u32, LexError>
    requires { (length source.now ≤ source_limit) × (record_limit * token_width ≤ length tokens.old) }
    ensures answer { result ≡ (lexing source.now).answer }
    ensures table { tokens.new ≡ token_table (lexing source.now) tokens.old }
{
    clear_tokens(tokens);
    let mut at: usize = 0;
    let mut count: u32 = 0;
    // No `for` fits: a turn goes as far as what matches.
    while at < source.len() {
        match lex_next(source, tokens, at, count) {
            Ok(next) => (at, count) = next,
            Err(error) => {
                clear_tokens(tokens);
                return Err(error);
            }
        }
    }
    Ok(count)
}

// The Rust's `lex_all`, for any bytes and any lent table: refusals 1, 2 and 3 first, in this order.
pub fn lex_all(source: &[u8], tokens: &mut [u32]) -> Result<u32, LexError>
    ensures answer { result ≡ lex_all source.now tokens.old }
    ensures table { tokens.new ≡ leaves (lex_all source.now tokens.old) source.now tokens.old }
{
    if tokens.len() < TokenRecord::TABLE {
        return Err(LexError::ShortTable);
    }
    if SOURCE_LIMIT < source.len() {
        clear_tokens(tokens);
        return Err(LexError::LongSource);
    }
    match text::check_text(source) {
        Err(error) => {
            clear_tokens(tokens);
            Err(LexError::NotUtf8(ByteOffset(error.at as u32)))
        }
        Ok(()) => lex_text(source, tokens),
    }
}
