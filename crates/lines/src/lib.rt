// One line: the Rust's `parse_line`, over lent tables of expressions and types.
#![tactic(auto)]

ghost use Rattle.std.specs.Prelude.{◌≡◌, ◌≤◌, length};
ghost use Rattle.records.specs.Limits.{source_limit};
ghost use Rattle.checks.specs.Checks.{checks_of};
ghost use Rattle.cursor.specs.Tokens.{tokens_left};
ghost use Rattle.cursor.specs.Cursor.{Ready};
ghost use Rattle.grammar.specs.Grammar.{line};
ghost use Rattle.lines.specs.Answers.{LineReads, tail_by, line_head_by, line_by};

use checks::Fault;
use cursor::{Answer, Cursor, Tokens};
use records::kinds::TokenKind;
use records::limits::Limits;
use records::numbers::{ExprNo, TypeNo};
use records::{LineRecord, Span};

// What begins a line: a name and `:=`, or a name and `:`.
#[derive(Clone, Copy)]
pub enum LineHead {
    Defined(Span),
    Declared(Span),
}

// What follows the name of a line.
#[tactic(auto, unfolding(crate::specs::Answers::tail_by))]
fn line_tail(tokens: Tokens, name: Span, c: Cursor) -> Answer<LineHead>
    requires { length tokens.source.now ≤ source_limit }
    ensures { result ≡ tail_by (length tokens.entry.source.now) name c (tokens_left tokens.entry.source.now tokens.entry.table.now tokens.entry.count c.token.0) }
{
    match tokens.peek(c) {
        Some((t, d)) if t.kind == TokenKind::ASSIGN => Ok((LineHead::Defined(name), d)),
        Some((t, d)) if t.kind == TokenKind::COLON => Ok((LineHead::Declared(name), d)),
        _ => Err(tokens.refusal(c, Fault::ParseFailed)),
    }
}

// What begins a line at the cursor. A name is a symbol or `_`.
#[tactic(auto, using(crate::proofs::Steps::head_name), unfolding(crate::specs::Answers::line_head_by))]
fn line_head(tokens: Tokens, c: Cursor) -> Answer<LineHead>
    requires { length tokens.source.now ≤ source_limit }
    ensures { result ≡ line_head_by (length tokens.entry.source.now) c (tokens_left tokens.entry.source.now tokens.entry.table.now tokens.entry.count c.token.0) }
{
    match tokens.peek(c) {
        Some((t, d)) if cursor::is_name(t.kind) => line_tail(tokens, t.span, d),
        _ => Err(tokens.refusal(c, Fault::ParseFailed)),
    }
}

// A line with its name, its expression (0 for none) and its arrow.
#[tactic(auto, unfolding(crate::specs::Answers::line_by))]
fn line_of(name: Span, expr: ExprNo, p: Answer<(TypeNo, TypeNo)>) -> Answer<LineRecord>
    ensures { result ≡ line_by name expr p }
{
    let ((source, target), c) = p?;
    let line = LineRecord {
        name,
        expr,
        source,
        target,
    };
    Ok((line, c))
}

// A line.
pub fn parse_line(
    jets: &[u8],
    tokens: Tokens,
    exprs: &mut [u32],
    types: &mut [u32],
    c: Cursor,
) -> Answer<LineRecord>
    requires { length tokens.source.now ≤ source_limit }
    ensures { Ready tokens.entry.count c → LineReads tokens.entry.source.now tokens.entry.table.now tokens.entry.count c (line (checks_of jets.now) (tokens_left tokens.entry.source.now tokens.entry.table.now tokens.entry.count c.token.0)) result exprs.old exprs.new types.old types.new }
{
    let (head, d) = line_head(tokens, c)?;
    match head {
        LineHead::Defined(name) => {
            let (e, f) = exprs::parse_expr(jets, tokens, exprs, d, Limits::DEPTH)?;
            let p = arrows::parse_optional_arrow(tokens, types, f);
            line_of(name, e, p)
        }
        LineHead::Declared(name) => {
            let p = arrows::parse_arrow(tokens, types, d);
            line_of(name, ExprNo(0), p)
        }
    }
}
