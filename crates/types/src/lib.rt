// Types: the Rust's `parse_type` and `parse_type_atom`, over a lent table of types.
#![tactic(auto)]

ghost use Rattle.std.specs.Prelude.{◌≡◌, List, ℕ, ◌≤◌, length};
ghost use Rattle.records.specs.Limits.{source_limit, type_width};
ghost use Rattle.records.specs.Records.{type_words};
ghost use Rattle.lex.specs.Tokens.{Token, record_of};
ghost use Rattle.tables.specs.Tables.{written};
ghost use Rattle.checks.specs.Checks.{power_verdict, checks_of};
ghost use Rattle.literals.specs.Literals.{span_text};
ghost use Rattle.cursor.specs.Tokens.{token_of, tokens_left};
ghost use Rattle.cursor.specs.Cursor.{next_number, Ready};
ghost use Rattle.grammar.specs.Grammar.{type, atom};
ghost use Rattle.types.specs.Answers.{type_record_by, finished, power_head, HeadAt, AtomHeadReads, operator_at, operator_read, joined_table, TypeReads};

use checks::Fault;
use cursor::{Answer, Cursor, ParseRefusal, Tokens};
use records::kinds::{TokenKind, TypeKind};
use records::numbers::TypeNo;
use records::{Span, TokenRecord, TypeRecord};

// The Rust's `ast::Type`: the parts of a product and a sum are numbers of records.
#[derive(Clone, Copy)]
pub enum TypeInner {
    Name(Span),
    One,
    Two,
    Product(TypeNo, TypeNo),
    Sum(TypeNo, TypeNo),
    TwoTwoN(u32),
}

// What begins an atom: a whole type, an absent one, or a parenthesis.
#[derive(Clone, Copy)]
pub enum AtomHead {
    Whole(TypeInner),
    Absent,
    Group,
}

// `+` and `*`.
#[derive(Clone, Copy)]
pub enum Op {
    Sum,
    Product,
}

// A record of a kind with no parts.
fn plain(kind: TypeKind, n: u32) -> TypeRecord
    ensures { result ≡ record { kind = kind; left = 0; right = 0; n = n } }
{
    TypeRecord {
        kind,
        left: 0,
        right: 0,
        n,
    }
}

// A record of a kind with two words of its own.
fn paired(kind: TypeKind, left: u32, right: u32) -> TypeRecord
    ensures { result ≡ record { kind = kind; left = left; right = right; n = 0 } }
{
    TypeRecord {
        kind,
        left,
        right,
        n: 0,
    }
}

impl TypeInner {
    // The record of a type.
    fn record(self) -> TypeRecord
        ensures { result ≡ type_record_by self }
    {
        match self {
            TypeInner::Name(span) => paired(TypeKind::NAME, span.start.0, span.len),
            TypeInner::One => plain(TypeKind::ONE, 0),
            TypeInner::Two => plain(TypeKind::TWO, 0),
            TypeInner::Product(l, r) => paired(TypeKind::PRODUCT, l.0, r.0),
            TypeInner::Sum(l, r) => paired(TypeKind::SUM, l.0, r.0),
            TypeInner::TwoTwoN(n) => plain(TypeKind::TWO_TWO_N, n),
        }
    }
}

// Records a complete type, and answers with its number.
fn finish(types: &mut [u32], c: Cursor, inner: TypeInner) -> Answer<TypeNo>
    ensures answer { result ≡ finished c }
    ensures table { types.new ≡ written type_width types.old (next_number c.ty.0) (type_words (type_record_by inner)) }
{
    let number = TypeNo(cursor::next_number(c.ty.0));
    tables::write_record(types, number.0, inner.record());
    Ok((number, Cursor { ty: number, ..c }))
}

// The type 2^(2^n): 2^1 is the type 2.
fn power_head(source: &[u8], span: Span, c: Cursor) -> Answer<AtomHead>
    ensures { result ≡ power_head (power_verdict (span_text source.now span)) span.start c }
{
    match checks::check_power(cursor::span_text(source, span)) {
        Ok(0) => Ok((AtomHead::Whole(TypeInner::Two), c)),
        Ok(n) => Ok((AtomHead::Whole(TypeInner::TwoTwoN(n)), c)),
        Err(fault) => {
            let at = span.start;
            Err(ParseRefusal { fault, at })
        }
    }
}

// What a token begins; c stands behind it.
#[tactic(auto, using(crate::proofs::Heads::by_kind))]
fn head_of(source: &[u8], t: TokenRecord, c: Cursor) -> Answer<AtomHead>
    ensures { (jets : List ℕ) (rest : List Token) → t ≡ record_of (token_of source.now t) → HeadAt jets (token_of source.now t) rest c result }
{
    match t.kind {
        TokenKind::L_PAREN => Ok((AtomHead::Group, c)),
        TokenKind::UNDERSCORE => Ok((AtomHead::Absent, c)),
        TokenKind::SYMBOL => Ok((AtomHead::Whole(TypeInner::Name(t.span)), c)),
        TokenKind::TWO_EXP => power_head(source, t.span, c),
        TokenKind::ONE => Ok((AtomHead::Whole(TypeInner::One), c)),
        TokenKind::TWO => Ok((AtomHead::Whole(TypeInner::Two), c)),
        _ => Err(ParseRefusal {
            fault: Fault::ParseFailed,
            at: t.span.start,
        }),
    }
}

// What begins an atom at the cursor.
#[tactic(auto, using(crate::proofs::Steps::head_next))]
fn type_head(tokens: Tokens, c: Cursor) -> Answer<AtomHead>
    requires { length tokens.source.now ≤ source_limit }
    ensures { (jets : List ℕ) → AtomHeadReads jets (length tokens.entry.source.now) c (tokens_left tokens.entry.source.now tokens.entry.table.now tokens.entry.count c.token.0) result }
{
    match tokens.peek(c) {
        Some((t, d)) => head_of(tokens.source, t, d),
        None => Err(tokens.refusal(c, Fault::ParseFailed)),
    }
}

// The operator behind a type that was read, if there is one, with the type before it and the cursor behind it.
#[tactic(auto, unfolding(crate::specs::Answers::operator_at))]
fn next_operator(tokens: Tokens, p: Answer<TypeNo>) -> Option<(Op, TypeNo, Cursor)>
    ensures { result ≡ operator_at tokens.entry.source.now tokens.entry.table.now tokens.entry.count p }
{
    let Ok((left, c)) = p else {
        return None;
    };
    let (t, d) = tokens.peek(c)?;
    if t.kind == TokenKind::PLUS {
        return Some((Op::Sum, left, d));
    }
    if t.kind == TokenKind::STAR {
        return Some((Op::Product, left, d));
    }
    None
}

// The type of an operator and its operands: an absent one makes the whole absent.
#[tactic(auto, unfolding(crate::specs::Answers::operator_read, crate::specs::Answers::joined_table))]
fn join(types: &mut [u32], op: Op, left: TypeNo, p: Answer<TypeNo>) -> Answer<TypeNo>
    ensures answer { result ≡ operator_read left p }
    ensures table { types.new ≡ joined_table op left p types.old }
{
    let (right, c) = p?;
    if left.0 == 0 {
        return Ok((TypeNo(0), c));
    }
    if right.0 == 0 {
        return Ok((TypeNo(0), c));
    }
    match op {
        Op::Sum => finish(types, c, TypeInner::Sum(left, right)),
        Op::Product => finish(types, c, TypeInner::Product(left, right)),
    }
}

// An atom of a type, with `depth` left for what stands in its parentheses.
#[cycle(parse_type_parse_type_atom)]
fn parse_type_atom(tokens: Tokens, types: &mut [u32], c: Cursor, depth: u32) -> Answer<TypeNo>
    requires { length tokens.source.now ≤ source_limit }
    ensures { (jets : List ℕ) → Ready tokens.entry.count c → TypeReads tokens.entry.source.now tokens.entry.table.now tokens.entry.count c (atom (checks_of jets) (type (checks_of jets) depth) (tokens_left tokens.entry.source.now tokens.entry.table.now tokens.entry.count c.token.0)) result types.old types.new }
{
    let (head, d) = type_head(tokens, c)?;
    match head {
        AtomHead::Whole(inner) => finish(types, d, inner),
        AtomHead::Absent => Ok((TypeNo(0), d)),
        AtomHead::Group => {
            let p = parse_type(tokens, types, d, depth);
            tokens.close(TokenKind::R_PAREN, p)
        }
    }
}

// A type, with `depth` left.
#[cycle(parse_type_parse_type_atom)]
pub fn parse_type(tokens: Tokens, types: &mut [u32], c: Cursor, depth: u32) -> Answer<TypeNo>
    requires { length tokens.source.now ≤ source_limit }
    ensures { (jets : List ℕ) → Ready tokens.entry.count c → TypeReads tokens.entry.source.now tokens.entry.table.now tokens.entry.count c (type (checks_of jets) depth (tokens_left tokens.entry.source.now tokens.entry.table.now tokens.entry.count c.token.0)) result types.old types.new }
{
    if depth == 0 {
        return Err(tokens.refusal(c, Fault::TooDeep));
    }
    let mut p = parse_type_atom(tokens, types, c, depth - 1);
    for _turn in 0..tokens.count {
        let Some((op, left, d)) = next_operator(tokens, p) else {
            return p;
        };
        let q = parse_type_atom(tokens, types, d, depth - 1);
        p = join(types, op, left, q);
    }
    p
}
