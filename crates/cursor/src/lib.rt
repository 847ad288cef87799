// The Rust's `Parser`: tokens in a lent table, and a cursor by value over them. Each function takes any words.
#![tactic(auto)]

ghost use Rattle.std.specs.Prelude.{◌≡◌, ◌+◌, ◌≤◌, leb, length, if◌then◌else◌};
ghost use Rattle.records.specs.Limits.{source_limit};
ghost use Rattle.lex.specs.Tokens.{record_of};
ghost use Rattle.cursor.specs.Tokens.{token_at, token_of_kind, tokens_left};
ghost use Rattle.literals.specs.Literals.{span_text};
ghost use Rattle.grammar.specs.Rule.{is_of};
ghost use Rattle.grammar.specs.Grammar.{names};
ghost use Rattle.cursor.specs.Cursor.{next_number, place_of_left, refusal_at, row_of_refused, peeked, expected, closed};

use checks::Fault;
use records::kinds::TokenKind;
use records::limits::Limits;
use records::numbers::{ByteOffset, ExprNo, TokenNo, TypeNo};
use records::refusals::{Cause, Refusal};
use records::{Span, TokenRecord};

// Where a parser stands: the numbers of the token passed last, and of the expression and the type recorded last.
#[derive(Clone, Copy)]
pub struct Cursor {
    pub token: TokenNo,
    pub expr: ExprNo,
    pub ty: TypeNo,
}

// Why the grammar refuses, and where.
#[derive(Clone, Copy)]
pub struct ParseRefusal {
    pub fault: Fault,
    pub at: ByteOffset,
}

impl Cause for ParseRefusal {
    ghost row_of = { row_of_refused };

    fn row(self) -> Refusal {
        self.fault.row(self.at)
    }
}

// What a parser answers: what it read and the cursor behind it, or a refusal.
pub type Answer<T> = Result<(T, Cursor), ParseRefusal>;

// The tokens of a source, so many, in a lent table.
#[derive(Clone, Copy)]
pub struct Tokens<'a> {
    pub source: &'a [u8],
    pub table: &'a [u32],
    pub count: u32,
}

// How long the text of a span is: a span that does not lie in a source of `total` bytes has none.
fn text_len(total: usize, start: u32, len: u32) -> u32
    ensures { result ≡ (if leb (start + len) total then len else 0) }
{
    if start as usize + len as usize <= total {
        len
    } else {
        0
    }
}

impl<'a> Tokens<'a> {
    // The record of a token, with the length of its text.
    #[tactic(auto, using(crate::proofs::Laws::text_length), unfolding(crate::specs::Tokens::token_at))]
    fn record(self, number: u32) -> TokenRecord
        ensures { result ≡ record_of (token_at self.entry.source.now self.entry.table.now number) }
    {
        let kind = tables::word(self.table, TokenRecord::WORDS, number, TokenRecord::KIND);
        let start = tables::word(self.table, TokenRecord::WORDS, number, TokenRecord::START);
        let len = tables::word(self.table, TokenRecord::WORDS, number, TokenRecord::LEN);
        TokenRecord {
            kind: TokenKind(kind),
            span: Span {
                start: ByteOffset(start),
                len: text_len(self.source.len(), start, len),
            },
        }
    }

    // The Rust's `peek` and `advance` in one: the next token, and the cursor behind it.
    #[tactic(auto, using(crate::proofs::Laws::left_none, crate::proofs::Laws::left_next))]
    pub fn peek(self, c: Cursor) -> Option<(TokenRecord, Cursor)>
        ensures { result ≡ peeked c (tokens_left self.entry.source.now self.entry.table.now self.entry.count c.token.0) }
    {
        let passed = c.token.0;
        if self.count <= passed {
            return None;
        }
        let next = self.record(passed + 1);
        let behind = Cursor {
            token: TokenNo(passed + 1),
            ..c
        };
        Some((next, behind))
    }

    // The Rust's `current_position`: where the next token starts, or the source's length.
    #[tactic(auto, using(crate::proofs::Laws::left_none, crate::proofs::Laws::left_next), unfolding(crate::specs::Tokens::token_at))]
    pub fn place(self, c: Cursor) -> ByteOffset
        requires { length self.source.now ≤ source_limit }
        ensures { result.0 ≡ place_of_left (length self.entry.source.now) (tokens_left self.entry.source.now self.entry.table.now self.entry.count c.token.0) }
    {
        let passed = c.token.0;
        if self.count <= passed {
            return ByteOffset(self.source.len() as u32);
        }
        ByteOffset(tables::word(
            self.table,
            TokenRecord::WORDS,
            passed + 1,
            TokenRecord::START,
        ))
    }

    // A refusal at the next token.
    pub fn refusal(self, c: Cursor, fault: Fault) -> ParseRefusal
        requires { length self.source.now ≤ source_limit }
        ensures { result ≡ refusal_at (length self.entry.source.now) fault (tokens_left self.entry.source.now self.entry.table.now self.entry.count c.token.0) }
    {
        ParseRefusal {
            fault,
            at: self.place(c),
        }
    }

    // The Rust's `expect`: passes a token of this kind.
    #[tactic(auto, unfolding(crate::specs::Cursor::expected))]
    pub fn expect(self, kind: TokenKind, c: Cursor) -> Result<Cursor, ParseRefusal>
        requires { length self.source.now ≤ source_limit }
        ensures { result ≡ expected (length self.entry.source.now) c kind.0 (tokens_left self.entry.source.now self.entry.table.now self.entry.count c.token.0) }
    {
        match self.peek(c) {
            Some((t, behind)) if t.kind == kind => Ok(behind),
            _ => Err(self.refusal(c, Fault::ParseFailed)),
        }
    }

    // Passes a token of this kind behind what was read.
    #[tactic(auto, unfolding(crate::specs::Cursor::closed))]
    pub fn close<T: Copy>(self, kind: TokenKind, p: Answer<T>) -> Answer<T>
        requires { length self.source.now ≤ source_limit }
        ensures { result ≡ closed self.entry.source.now self.entry.table.now self.entry.count kind.0 p }
    {
        let (read, c) = p?;
        let d = self.expect(kind, c)?;
        Ok((read, d))
    }
}

// The text of a span, as the very part of the source; a span that does not lie in the source has none.
pub fn span_text(source: &[u8], span: Span) -> &[u8]
    ensures { result.now ≡ span_text source.now span }
{
    let start = span.start.0 as usize;
    let len = span.len as usize;
    if start + len <= source.len() {
        return &source[start..start + len];
    }
    &source[..0]
}

// The number of the record behind record `number`. There is none past the last.
#[tactic(auto, unfolding(crate::specs::Cursor::next_number))]
pub fn next_number(number: u32) -> u32
    ensures { result ≡ next_number number }
{
    if number < Limits::RECORDS {
        number + 1
    } else {
        number
    }
}

// A name is a symbol or `_`.
pub fn is_name(kind: TokenKind) -> bool
    ensures { result ≡ is_of (token_of_kind kind) names }
{
    (kind == TokenKind::SYMBOL) | (kind == TokenKind::UNDERSCORE)
}
