// Arrows: the Rust's `parse_arrow`, over a lent table of types.
#![tactic(auto)]

ghost use Rattle.std.specs.Prelude.{List, ℕ, ◌≤◌, length};
ghost use Rattle.records.specs.Limits.{source_limit};
ghost use Rattle.checks.specs.Checks.{checks_of};
ghost use Rattle.cursor.specs.Tokens.{tokens_left};
ghost use Rattle.cursor.specs.Cursor.{Ready};
ghost use Rattle.grammar.specs.Grammar.{arrow, perhaps_arrow};
ghost use Rattle.arrows.specs.Answers.{or_absent, ArrowReads};

use cursor::{Answer, Cursor, Tokens};
use records::kinds::TokenKind;
use records::limits::Limits;
use records::numbers::TypeNo;

// An arrow: a type, `->` and a type. It answers with the types' numbers.
pub fn parse_arrow(tokens: Tokens, types: &mut [u32], c: Cursor) -> Answer<(TypeNo, TypeNo)>
    requires { length tokens.source.now ≤ source_limit }
    ensures { (jets : List ℕ) → Ready tokens.entry.count c → ArrowReads tokens.entry.source.now tokens.entry.table.now tokens.entry.count c (arrow (checks_of jets) (tokens_left tokens.entry.source.now tokens.entry.table.now tokens.entry.count c.token.0)) result types.old types.new }
{
    let (from, d) = types::parse_type(tokens, types, c, Limits::DEPTH)?;
    let f = tokens.expect(TokenKind::ARROW, d)?;
    let (to, g) = types::parse_type(tokens, types, f, Limits::DEPTH)?;
    Ok(((from, to), g))
}

// Perhaps `:` and an arrow; without them both types are absent.
pub fn parse_optional_arrow(
    tokens: Tokens,
    types: &mut [u32],
    c: Cursor,
) -> Answer<(TypeNo, TypeNo)>
    requires { length tokens.source.now ≤ source_limit }
    ensures { (jets : List ℕ) → Ready tokens.entry.count c → ArrowReads tokens.entry.source.now tokens.entry.table.now tokens.entry.count c (or_absent (perhaps_arrow (checks_of jets) (tokens_left tokens.entry.source.now tokens.entry.table.now tokens.entry.count c.token.0))) result types.old types.new }
{
    match tokens.expect(TokenKind::COLON, c) {
        Ok(d) => parse_arrow(tokens, types, d),
        Err(_) => Ok(((TypeNo(0), TypeNo(0)), c)),
    }
}
