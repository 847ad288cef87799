// What begins an expression: the Rust's `parse_literal` and the front of its `parse_expr`; and the record of an expression.
#![tactic(auto)]

ghost use Rattle.std.specs.Prelude.{◌≡◌, ◌∷◌, ◌≤◌, length};
ghost use Rattle.records.specs.Limits.{source_limit};
ghost use Rattle.lex.specs.Tokens.{record_of};
ghost use Rattle.checks.specs.Checks.{jet_verdict, checks_of};
ghost use Rattle.literals.specs.Literals.{span_text};
ghost use Rattle.cursor.specs.Tokens.{token_of, token_of_kind, tokens_left};
ghost use Rattle.cursor.specs.Cursor.{Ready};
ghost use Rattle.grammar.specs.Rule.{is_of};
ghost use Rattle.grammar.specs.Grammar.{literals, head};
ghost use Rattle.heads.specs.Answers.{record_with, no_expr, expr_record_by, KeywordIs, keyword_head, tested_by, literal_answer, hole_head, word_head, fail_head, HeadReads};
ghost use Rattle.heads.specs.declared.ExprInner.TheVariants.{AssertL, AssertR, Jet};

use checks::Fault;
use cursor::{Answer, Cursor, ParseRefusal, Tokens};
use records::kinds::{NodeKind, TokenKind};
use records::numbers::{ByteOffset, ExprNo};
use records::{ExprRecord, Span, TokenRecord};

// The Rust's `AstCmr`; a literal is kept.
#[derive(Clone, Copy)]
pub enum Cmr {
    Expr(ExprNo),
    Literal(Span),
}

// The Rust's `ExprInner`: parts are numbers of records, and an assertion holds a CMR.
#[derive(Clone, Copy)]
pub enum ExprInner {
    Reference(Span),
    AssertL(ExprNo, Cmr),
    AssertR(Cmr, ExprNo),
    Nullary(NodeKind),
    Unary(NodeKind, ExprNo),
    Binary(NodeKind, ExprNo, ExprNo),
    Hole(Span),
    Fail(Span),
    Jet(Span),
    Word(Span),
}

// A keyword with two parts: two expressions, an expression and a CMR, or a CMR and an expression.
#[derive(Clone, Copy)]
pub enum TwoParts {
    Binary(NodeKind),
    AssertL,
    AssertR,
}

// What begins an expression: a whole one with its place, or a parenthesis or a keyword whose parts follow.
#[derive(Clone, Copy)]
pub enum ExprHead {
    Whole(ExprInner, ByteOffset),
    Parens,
    Unary(NodeKind, ByteOffset),
    Two(TwoParts, ByteOffset),
}

// A keyword by how many expressions follow it, with the kind of the expression.
#[derive(Clone, Copy)]
pub enum Keyword {
    Nullary(NodeKind),
    Unary(NodeKind),
    Binary(NodeKind),
}

// The record of an expression with parts,
fn parts_record(
    kind: NodeKind,
    at: ByteOffset,
    left: ExprNo,
    right: ExprNo,
    span: Span,
) -> ExprRecord
    ensures { result ≡ record_with kind.0 at left right span }
{
    ExprRecord {
        kind,
        start: at,
        left,
        right,
        span,
    }
}

// and one without.
fn leaf_record(kind: NodeKind, at: ByteOffset, span: Span) -> ExprRecord
    ensures { result ≡ record_with kind.0 at no_expr no_expr span }
{
    parts_record(kind, at, ExprNo(0), ExprNo(0), span)
}

// The record of `assertl`, whose right side is the CMR: a literal leaves that side 0 and is the span.
fn assert_left_record(at: ByteOffset, e: ExprNo, cmr: Cmr) -> ExprRecord
    ensures { result ≡ expr_record_by (AssertL e cmr) at }
{
    match cmr {
        Cmr::Expr(f) => parts_record(NodeKind::ASSERT_L, at, e, f, records::no_span()),
        Cmr::Literal(span) => parts_record(NodeKind::ASSERT_L, at, e, ExprNo(0), span),
    }
}

// The record of `assertr`, whose left side is the CMR.
fn assert_right_record(at: ByteOffset, cmr: Cmr, e: ExprNo) -> ExprRecord
    ensures { result ≡ expr_record_by (AssertR cmr e) at }
{
    match cmr {
        Cmr::Expr(f) => parts_record(NodeKind::ASSERT_R, at, f, e, records::no_span()),
        Cmr::Literal(span) => parts_record(NodeKind::ASSERT_R, at, ExprNo(0), e, span),
    }
}

impl ExprInner {
    // The record of an expression at its place.
    pub fn record(self, at: ByteOffset) -> ExprRecord
        ensures { result ≡ expr_record_by self at }
    {
        let none = records::no_span();
        match self {
            ExprInner::Reference(span) => leaf_record(NodeKind::REFERENCE, at, span),
            ExprInner::AssertL(e, cmr) => assert_left_record(at, e, cmr),
            ExprInner::AssertR(cmr, e) => assert_right_record(at, cmr, e),
            ExprInner::Nullary(kind) => leaf_record(kind, at, none),
            ExprInner::Unary(kind, e) => parts_record(kind, at, e, ExprNo(0), none),
            ExprInner::Binary(kind, l, r) => parts_record(kind, at, l, r, none),
            ExprInner::Hole(span) => leaf_record(NodeKind::HOLE, at, span),
            ExprInner::Fail(span) => leaf_record(NodeKind::FAIL, at, span),
            ExprInner::Jet(span) => leaf_record(NodeKind::JET, at, span),
            ExprInner::Word(span) => leaf_record(NodeKind::WORD, at, span),
        }
    }
}

// A literal is `_`, binary or hex.
fn is_literal(kind: TokenKind) -> bool
    ensures { result ≡ is_of (token_of_kind kind) literals }
{
    (kind == TokenKind::UNDERSCORE)
        | (kind == TokenKind::BIN_LITERAL)
        | (kind == TokenKind::HEX_LITERAL)
}

// The Rust's `parse_literal`: the literal that has to come, and how many bits it has.
#[tactic(auto, unfolding(crate::specs::Answers::literal_answer), using(crate::proofs::Steps::text_fits))]
fn parse_literal(tokens: Tokens, c: Cursor) -> Answer<(Span, u32)>
    requires { length tokens.source.now ≤ source_limit }
    ensures { result ≡ literal_answer (length tokens.entry.source.now) c (tokens_left tokens.entry.source.now tokens.entry.table.now tokens.entry.count c.token.0) }
{
    match tokens.peek(c) {
        Some((t, d)) if is_literal(t.kind) => {
            let bits = literals::bit_length(t.kind, t.span.len);
            Ok(((t.span, bits), d))
        }
        _ => Err(tokens.refusal(c, Fault::ParseFailed)),
    }
}

// Behind `?`: a name, which is the place of the hole.
#[tactic(auto, unfolding(crate::specs::Answers::hole_head))]
fn hole_head(tokens: Tokens, c: Cursor) -> Answer<ExprHead>
    requires { length tokens.source.now ≤ source_limit }
    ensures { result ≡ hole_head (length tokens.entry.source.now) c (tokens_left tokens.entry.source.now tokens.entry.table.now tokens.entry.count c.token.0) }
{
    match tokens.peek(c) {
        Some((t, d)) if cursor::is_name(t.kind) => {
            Ok((ExprHead::Whole(ExprInner::Hole(t.span), t.span.start), d))
        }
        _ => Err(tokens.refusal(c, Fault::ParseFailed)),
    }
}

// A whole expression, if the literal or the jet of this span passed its test; refusals 7 to 10 stand there.
#[tactic(auto, unfolding(crate::specs::Answers::tested_by))]
fn tested(
    test: Result<(), Fault>,
    inner: ExprInner,
    at: ByteOffset,
    span: Span,
    c: Cursor,
) -> Answer<ExprHead>
    ensures { result ≡ tested_by test inner at span c }
{
    match test {
        Ok(()) => Ok((ExprHead::Whole(inner, at), c)),
        Err(fault) => Err(ParseRefusal {
            fault,
            at: span.start,
        }),
    }
}

// Behind `const`: its place is the literal.
#[tactic(auto, unfolding(crate::specs::Answers::word_head))]
fn word_head(p: Answer<(Span, u32)>) -> Answer<ExprHead>
    ensures { result ≡ word_head p }
{
    let ((span, bits), c) = p?;
    let test = checks::check_word(bits);
    tested(test, ExprInner::Word(span), span.start, span, c)
}

// Behind `fail`: its place is the keyword.
#[tactic(auto, unfolding(crate::specs::Answers::fail_head))]
fn fail_head(at: ByteOffset, p: Answer<(Span, u32)>) -> Answer<ExprHead>
    ensures { result ≡ fail_head at p }
{
    let ((span, bits), c) = p?;
    let test = checks::check_fail(bits);
    tested(test, ExprInner::Fail(span), at, span, c)
}

// A jet, by its token's text.
fn jet_head(source: &[u8], jets: &[u8], span: Span, c: Cursor) -> Answer<ExprHead>
    ensures { result ≡ tested_by (jet_verdict jets.now (span_text source.now span)) (Jet span) span.start span c }
{
    let test = checks::check_jet(jets, cursor::span_text(source, span));
    tested(test, ExprInner::Jet(span), span.start, span, c)
}

// Which keyword it is, of those with nothing but expressions behind them.
#[tactic(auto, unfolding(crate::specs::Answers::KeywordIs))]
fn keyword_of(kind: TokenKind) -> Option<Keyword>
    ensures { KeywordIs kind.0 result }
{
    match kind {
        TokenKind::UNIT => Some(Keyword::Nullary(NodeKind::UNIT)),
        TokenKind::IDEN => Some(Keyword::Nullary(NodeKind::IDEN)),
        TokenKind::WITNESS => Some(Keyword::Nullary(NodeKind::WITNESS)),
        TokenKind::INJ_L => Some(Keyword::Unary(NodeKind::INJ_L)),
        TokenKind::INJ_R => Some(Keyword::Unary(NodeKind::INJ_R)),
        TokenKind::TAKE => Some(Keyword::Unary(NodeKind::TAKE)),
        TokenKind::DROP => Some(Keyword::Unary(NodeKind::DROP)),
        TokenKind::DISCONNECT => Some(Keyword::Binary(NodeKind::DISCONNECT)),
        TokenKind::CASE => Some(Keyword::Binary(NodeKind::CASE)),
        TokenKind::COMP => Some(Keyword::Binary(NodeKind::COMP)),
        TokenKind::PAIR => Some(Keyword::Binary(NodeKind::PAIR)),
        _ => None,
    }
}

// What a keyword at this place begins; refusal 6 if it is none.
#[tactic(auto, unfolding(crate::specs::Answers::keyword_head))]
fn keyword_head(w: Option<Keyword>, at: ByteOffset, c: Cursor) -> Answer<ExprHead>
    ensures { result ≡ keyword_head w at c }
{
    let Some(keyword) = w else {
        let fault = Fault::ParseFailed;
        return Err(ParseRefusal { fault, at });
    };
    match keyword {
        Keyword::Nullary(kind) => Ok((ExprHead::Whole(ExprInner::Nullary(kind), at), c)),
        Keyword::Unary(kind) => Ok((ExprHead::Unary(kind, at), c)),
        Keyword::Binary(kind) => Ok((ExprHead::Two(TwoParts::Binary(kind), at), c)),
    }
}

// What a token begins; c stands behind it.
#[tactic(auto, using(crate::proofs::Heads::by_kind))]
fn head_of(jets: &[u8], tokens: Tokens, t: TokenRecord, c: Cursor) -> Answer<ExprHead>
    requires { length tokens.source.now ≤ source_limit }
    ensures { Ready tokens.entry.count c → t ≡ record_of (token_of tokens.entry.source.now t) → HeadReads tokens.entry.source.now tokens.entry.table.now tokens.entry.count c (head (checks_of jets.now) (token_of tokens.entry.source.now t ∷ tokens_left tokens.entry.source.now tokens.entry.table.now tokens.entry.count c.token.0)) result }
{
    let span = t.span;
    let at = span.start;
    match t.kind {
        TokenKind::QUESTION => hole_head(tokens, c),
        TokenKind::CONST => word_head(parse_literal(tokens, c)),
        TokenKind::FAIL => fail_head(at, parse_literal(tokens, c)),
        TokenKind::JET => jet_head(tokens.source, jets, span, c),
        TokenKind::SYMBOL => Ok((ExprHead::Whole(ExprInner::Reference(span), at), c)),
        TokenKind::UNDERSCORE => Ok((ExprHead::Whole(ExprInner::Reference(span), at), c)),
        TokenKind::L_PAREN => Ok((ExprHead::Parens, c)),
        TokenKind::ASSERT_L => Ok((ExprHead::Two(TwoParts::AssertL, at), c)),
        TokenKind::ASSERT_R => Ok((ExprHead::Two(TwoParts::AssertR, at), c)),
        kind => keyword_head(keyword_of(kind), at, c),
    }
}

// What begins at the cursor.
#[tactic(auto, using(crate::proofs::Heads::headless))]
pub fn expr_head(jets: &[u8], tokens: Tokens, c: Cursor) -> Answer<ExprHead>
    requires { length tokens.source.now ≤ source_limit }
    ensures { Ready tokens.entry.count c → HeadReads tokens.entry.source.now tokens.entry.table.now tokens.entry.count c (head (checks_of jets.now) (tokens_left tokens.entry.source.now tokens.entry.table.now tokens.entry.count c.token.0)) result }
{
    match tokens.peek(c) {
        Some((t, d)) => head_of(jets, tokens, t, d),
        None => Err(tokens.refusal(c, Fault::ParseFailed)),
    }
}
