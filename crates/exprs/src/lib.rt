// Expressions and CMRs: the Rust's `parse_expr` and `parse_cmr`, over a lent table of expressions.
#![tactic(auto)]

ghost use Rattle.std.specs.Prelude.{◌≡◌, ◌≤◌, length};
ghost use Rattle.records.specs.Limits.{source_limit};
ghost use Rattle.checks.specs.Checks.{checks_of};
ghost use Rattle.cursor.specs.Tokens.{tokens_left};
ghost use Rattle.cursor.specs.Cursor.{Ready};
ghost use Rattle.grammar.specs.Grammar.{expr, cmr};
ghost use Rattle.exprs.specs.Answers.{cmr_head_by, completed, completed_table, cmr_of, unary_by, binary_by, assert_lby, assert_rby, ExprReads, CmrReads, TwoReads};

use checks::Fault;
use cursor::{Answer, Cursor, Tokens};
use heads::{Cmr, ExprHead, ExprInner, TwoParts};
use records::Span;
use records::kinds::{NodeKind, TokenKind};
use records::numbers::{ByteOffset, ExprNo};

// What begins a CMR.
#[derive(Clone, Copy)]
pub enum CmrHead {
    Brace,
    Literal(Span),
}

// Records a complete expression at its place, and answers with its number.
#[tactic(auto, unfolding(crate::specs::Answers::completed, crate::specs::Answers::completed_table))]
fn finish(exprs: &mut [u32], at: ByteOffset, p: Answer<ExprInner>) -> Answer<ExprNo>
    ensures answer { result ≡ completed p }
    ensures table { exprs.new ≡ completed_table at p exprs.old }
{
    let (inner, c) = p?;
    let number = ExprNo(cursor::next_number(c.expr.0));
    tables::write_record(exprs, number.0, inner.record(at));
    Ok((number, Cursor { expr: number, ..c }))
}

// What CMR begins at the cursor.
#[tactic(auto, unfolding(crate::specs::Answers::cmr_head_by))]
fn cmr_head(tokens: Tokens, c: Cursor) -> Answer<CmrHead>
    requires { length tokens.source.now ≤ source_limit }
    ensures { result ≡ cmr_head_by (length tokens.entry.source.now) c (tokens_left tokens.entry.source.now tokens.entry.table.now tokens.entry.count c.token.0) }
{
    match tokens.peek(c) {
        Some((t, d)) if t.kind == TokenKind::HASH_BRACE => Ok((CmrHead::Brace, d)),
        Some((t, d)) if t.kind == TokenKind::CMR_LITERAL => Ok((CmrHead::Literal(t.span), d)),
        _ => Err(tokens.refusal(c, Fault::ParseFailed)),
    }
}

// The CMR of an expression in braces.
#[tactic(auto, unfolding(crate::specs::Answers::cmr_of))]
fn braced(p: Answer<ExprNo>) -> Answer<Cmr>
    ensures { result ≡ cmr_of p }
{
    let (e, c) = p?;
    Ok((Cmr::Expr(e), c))
}

// A keyword with one expression,
#[tactic(auto, unfolding(crate::specs::Answers::unary_by))]
fn unary(kind: NodeKind, p: Answer<ExprNo>) -> Answer<ExprInner>
    ensures { result ≡ unary_by kind p }
{
    let (e, c) = p?;
    Ok((ExprInner::Unary(kind, e), c))
}

// with two, of which the left one is read,
#[tactic(auto, unfolding(crate::specs::Answers::binary_by))]
fn binary(kind: NodeKind, left: ExprNo, p: Answer<ExprNo>) -> Answer<ExprInner>
    ensures { result ≡ binary_by kind left p }
{
    let (right, c) = p?;
    Ok((ExprInner::Binary(kind, left, right), c))
}

// an assertion whose expression is read,
#[tactic(auto, unfolding(crate::specs::Answers::assert_lby))]
fn assert_left(e: ExprNo, p: Answer<Cmr>) -> Answer<ExprInner>
    ensures { result ≡ assert_lby e p }
{
    let (cmr, c) = p?;
    Ok((ExprInner::AssertL(e, cmr), c))
}

// and one whose CMR is.
#[tactic(auto, unfolding(crate::specs::Answers::assert_rby))]
fn assert_right(cmr: Cmr, p: Answer<ExprNo>) -> Answer<ExprInner>
    ensures { result ≡ assert_rby cmr p }
{
    let (e, c) = p?;
    Ok((ExprInner::AssertR(cmr, e), c))
}

// An expression, with `depth` left.
#[cycle(parse_cmr_parse_expr_parse_two)]
pub fn parse_expr(
    jets: &[u8],
    tokens: Tokens,
    exprs: &mut [u32],
    c: Cursor,
    depth: u32,
) -> Answer<ExprNo>
    requires { length tokens.source.now ≤ source_limit }
    ensures { Ready tokens.entry.count c → ExprReads tokens.entry.source.now tokens.entry.table.now tokens.entry.count c (expr (checks_of jets.now) depth (tokens_left tokens.entry.source.now tokens.entry.table.now tokens.entry.count c.token.0)) result exprs.old exprs.new }
{
    if depth == 0 {
        return Err(tokens.refusal(c, Fault::TooDeep));
    }
    let below = depth - 1;
    let (head, d) = heads::expr_head(jets, tokens, c)?;
    match head {
        ExprHead::Whole(inner, at) => finish(exprs, at, Ok((inner, d))),
        ExprHead::Parens => {
            let p = parse_expr(jets, tokens, exprs, d, below);
            tokens.close(TokenKind::R_PAREN, p)
        }
        ExprHead::Unary(kind, at) => {
            let p = parse_expr(jets, tokens, exprs, d, below);
            finish(exprs, at, unary(kind, p))
        }
        ExprHead::Two(parts, at) => {
            let p = parse_two(jets, tokens, exprs, parts, d, below);
            finish(exprs, at, p)
        }
    }
}

// The two parts behind a keyword, with `depth` left for each.
#[cycle(parse_cmr_parse_expr_parse_two)]
fn parse_two(
    jets: &[u8],
    tokens: Tokens,
    exprs: &mut [u32],
    parts: TwoParts,
    c: Cursor,
    depth: u32,
) -> Answer<ExprInner>
    requires { length tokens.source.now ≤ source_limit }
    ensures { TwoReads tokens.entry.source.now jets.now tokens.entry.table.now tokens.entry.count parts c depth result exprs.old exprs.new }
{
    match parts {
        TwoParts::Binary(kind) => {
            let (left, d) = parse_expr(jets, tokens, exprs, c, depth)?;
            let p = parse_expr(jets, tokens, exprs, d, depth);
            binary(kind, left, p)
        }
        TwoParts::AssertL => {
            let (e, d) = parse_expr(jets, tokens, exprs, c, depth)?;
            let p = parse_cmr(jets, tokens, exprs, d, depth);
            assert_left(e, p)
        }
        TwoParts::AssertR => {
            let (cmr, d) = parse_cmr(jets, tokens, exprs, c, depth)?;
            let p = parse_expr(jets, tokens, exprs, d, depth);
            assert_right(cmr, p)
        }
    }
}

// A CMR, with `depth` left for the expression in it.
#[cycle(parse_cmr_parse_expr_parse_two)]
fn parse_cmr(jets: &[u8], tokens: Tokens, exprs: &mut [u32], c: Cursor, depth: u32) -> Answer<Cmr>
    requires { length tokens.source.now ≤ source_limit }
    ensures { Ready tokens.entry.count c → CmrReads tokens.entry.source.now tokens.entry.table.now tokens.entry.count c (cmr (checks_of jets.now) (expr (checks_of jets.now) depth) (tokens_left tokens.entry.source.now tokens.entry.table.now tokens.entry.count c.token.0)) result exprs.old exprs.new }
{
    let (head, d) = cmr_head(tokens, c)?;
    match head {
        CmrHead::Brace => {
            let p = parse_expr(jets, tokens, exprs, d, depth);
            braced(tokens.close(TokenKind::R_BRACE, p))
        }
        CmrHead::Literal(span) => Ok((Cmr::Literal(span), d)),
    }
}
