// The lines of a source: the Rust's `parse_line_vector`, over lent tables.
#![tactic(auto)]

ghost use Rattle.std.specs.Prelude.{◌≡◌, [], ◌*◌, ◌≤◌, length};
ghost use Rattle.records.specs.Limits.{source_limit, record_limit, token_width, line_width, expr_width, type_width};
ghost use Rattle.tables.specs.Tables.{table_of};
ghost use Rattle.checks.specs.Checks.{checks_of};
ghost use Rattle.cursor.specs.Tokens.{tokens_left};
ghost use Rattle.grammar.specs.Grammar.{lines as lines_of};
ghost use Rattle.grammar.specs.Recorded.{line_rows, expr_rows_of, type_rows_of};
ghost use Rattle.ast.specs.Parsing.{tables, short_to_parse_by, tokens_kept, lines_in, end_by, parse_all, tables_after};

use cursor::{Cursor, ParseRefusal, Tokens};
use ends::{Counts, ParseError};
use lex::LexError;
use records::limits::Limits;
use records::numbers::{ExprNo, TokenNo, TypeNo};
use records::{ExprRecord, LineRecord, TokenRecord, TypeRecord};

// Sets the records of the tables of lines, expressions and types, which have room, to zero.
#[tactic(auto, using(tables::proofs::Laws::table_cleared))]
fn clear_parsed(lines: &mut [u32], exprs: &mut [u32], types: &mut [u32])
    requires { (record_limit * line_width ≤ length lines.old) × (record_limit * expr_width ≤ length exprs.old) × (record_limit * type_width ≤ length types.old) }
    ensures lines { lines.new ≡ table_of line_width [] lines.old }
    ensures exprs { exprs.new ≡ table_of expr_width [] exprs.old }
    ensures types { types.new ≡ table_of type_width [] types.old }
{
    tables::clear(lines, LineRecord::WORDS);
    tables::clear(exprs, ExprRecord::WORDS);
    tables::clear(types, TypeRecord::WORDS);
}

// Parses tokens into tables of lines, expressions and types. It asks for what the layers above have tested: refusals 1 and 2, and
// the count of tokens.
pub fn parse_tokens(
    jets: &[u8],
    tokens: Tokens,
    lines: &mut [u32],
    exprs: &mut [u32],
    types: &mut [u32],
) -> Result<Counts, ParseRefusal>
    requires { (length tokens.source.now ≤ source_limit) × (tokens.count ≤ record_limit) × (record_limit * line_width ≤ length lines.old) × (record_limit * expr_width ≤ length exprs.old) × (record_limit * type_width ≤ length types.old) }
    ensures answer { result ≡ end_by (length tokens.entry.source.now) (tokens_left tokens.entry.source.now tokens.entry.table.now tokens.entry.count 0) (lines_of (checks_of jets.now) (tokens_left tokens.entry.source.now tokens.entry.table.now tokens.entry.count 0)) }
    ensures lines { lines.new ≡ table_of line_width (line_rows (lines_in (lines_of (checks_of jets.now) (tokens_left tokens.entry.source.now tokens.entry.table.now tokens.entry.count 0)))) lines.old }
    ensures exprs { exprs.new ≡ table_of expr_width (expr_rows_of (lines_in (lines_of (checks_of jets.now) (tokens_left tokens.entry.source.now tokens.entry.table.now tokens.entry.count 0)))) exprs.old }
    ensures types { types.new ≡ table_of type_width (type_rows_of (lines_in (lines_of (checks_of jets.now) (tokens_left tokens.entry.source.now tokens.entry.table.now tokens.entry.count 0)))) types.old }
{
    clear_parsed(lines, exprs, types);
    let mut c = Cursor {
        token: TokenNo(0),
        expr: ExprNo(0),
        ty: TypeNo(0),
    };
    let mut made: u32 = 0;
    while c.token.0 < tokens.count {
        match lines::parse_line(jets, tokens, exprs, types, c) {
            Ok((line, d)) => {
                made = cursor::next_number(made);
                tables::write_record(lines, made, line);
                c = d;
            }
            Err(refusal) => {
                clear_parsed(lines, exprs, types);
                return Err(refusal);
            }
        }
    }
    Ok(Counts {
        tokens: tokens.count,
        lines: made,
        exprs: c.expr.0,
        types: c.ty.0,
    })
}

// Whether a table of so many words is too short for its records.
#[tactic(auto, unfolding(crate::specs::Parsing::short_to_parse_by))]
fn is_short(tokens: usize, lines: usize, exprs: usize, types: usize) -> bool
    ensures { result ≡ short_to_parse_by tokens lines exprs types }
{
    (tokens < TokenRecord::TABLE)
        | (lines < LineRecord::TABLE)
        | (exprs < ExprRecord::TABLE)
        | (types < TypeRecord::TABLE)
}

// Parses the tokens of a source that has lexed. A refusal sets the records of the tokens to zero too.
#[tactic(auto, using(crate::proofs::Whole::kept_refused))]
fn parse_lexed(
    source: &[u8],
    jets: &[u8],
    tokens: &mut [u32],
    count: u32,
    lines: &mut [u32],
    exprs: &mut [u32],
    types: &mut [u32],
) -> Result<Counts, ParseRefusal>
    requires { (length source.now ≤ source_limit) × (count ≤ record_limit) × (record_limit * token_width ≤ length tokens.old) × (record_limit * line_width ≤ length lines.old) × (record_limit * expr_width ≤ length exprs.old) × (record_limit * type_width ≤ length types.old) }
    ensures answer { result ≡ end_by (length source.now) (tokens_left source.now tokens.old count 0) (lines_of (checks_of jets.now) (tokens_left source.now tokens.old count 0)) }
    ensures tokens { tokens.new ≡ tokens_kept (lines_of (checks_of jets.now) (tokens_left source.now tokens.old count 0)) tokens.old }
    ensures lines { lines.new ≡ table_of line_width (line_rows (lines_in (lines_of (checks_of jets.now) (tokens_left source.now tokens.old count 0)))) lines.old }
    ensures exprs { exprs.new ≡ table_of expr_width (expr_rows_of (lines_in (lines_of (checks_of jets.now) (tokens_left source.now tokens.old count 0)))) exprs.old }
    ensures types { types.new ≡ table_of type_width (type_rows_of (lines_in (lines_of (checks_of jets.now) (tokens_left source.now tokens.old count 0)))) types.old }
{
    let lexed = Tokens {
        source,
        table: tokens,
        count,
    };
    match parse_tokens(jets, lexed, lines, exprs, types) {
        Ok(counts) => Ok(counts),
        Err(refusal) => {
            tables::clear(tokens, TokenRecord::WORDS);
            Err(refusal)
        }
    }
}

// The Rust's `parse_line_vector`, for any bytes, any jet list and any lent tables: refusals 1 to 13 in their order.
pub fn parse_line_vector(
    source: &[u8],
    jets: &[u8],
    tokens: &mut [u32],
    lines: &mut [u32],
    exprs: &mut [u32],
    types: &mut [u32],
) -> Result<Counts, ParseError>
    ensures answer { result ≡ parse_all source.now jets.now (tables tokens.old lines.old exprs.old types.old) }
    ensures tables { tables tokens.new lines.new exprs.new types.new ≡ tables_after source.now jets.now (tables tokens.old lines.old exprs.old types.old) }
{
    if is_short(tokens.len(), lines.len(), exprs.len(), types.len()) {
        return Err(ParseError::NotLexed(LexError::ShortTable));
    }
    match lex::lex_all(source, tokens) {
        Ok(count) => {
            let counts = parse_lexed(source, jets, tokens, count, lines, exprs, types)?;
            Ok(counts)
        }
        Err(error) => {
            clear_parsed(lines, exprs, types);
            Err(ParseError::NotLexed(error))
        }
    }
}
