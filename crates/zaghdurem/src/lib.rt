// The library as a host calls it through C: thin wrappers, each with the contract of what it wraps and nothing asked of the
// caller. include/zaghdurem.h declares them.
#![tactic(auto)]

ghost use Rattle.std.specs.Prelude.{◌≡◌, length};
ghost use Rattle.ast.specs.Parsing.{tables as lent_tables, parse_all, tables_after};
ghost use Rattle.literals.specs.Literals.{literal_byte};
ghost use Rattle.lex.specs.Tokens.{lex_all, leaves};
ghost use Rattle.records.specs.Limits.{limits};
ghost use Rattle.tables.specs.Tables.{word_at};
ghost use Rattle.text.specs.Check.{check_text, row_of_text};
ghost use Rattle.text.specs.Place.{position_of};
ghost use Rattle.access.specs.Access.{part_in, name_span, next_root};
ghost use Rattle.listing.specs.Listing.{listing, list_answer, listed_in};
ghost use Rattle.reader.specs.Reading.{eight, read_into, read_tables, answer_of};
ghost use Rattle.answers.specs.Rows.{lexed_row, parsed_row, read_row, part_row, listed_row};

use answers::{LexedRow, ListedRow, ParsedRow, PartRow, ReadRow};
use records::limits::Limits;
use records::numbers::{ByteOffset, NameNo};
use records::refusals::Refusal;
use records::{Span, refusals};
use text::Position;

// The limits, and the words of a record of each table.
#[unsafe(no_mangle)]
pub extern "C" fn zaghdurem_limits() -> Limits
    ensures { result ≡ limits }
{
    Limits::all()
}

// Refusal 3 with its place if the bytes are not UTF-8; else no refusal.
#[unsafe(no_mangle)]
pub extern "C" fn zaghdurem_check_text(source: &[u8]) -> Refusal
    ensures { result ≡ row_of_text (check_text source.now) }
{
    let answer = text::check_text(source);
    refusals::row(answer)
}

// The line and column of an offset, for any bytes.
#[unsafe(no_mangle)]
pub extern "C" fn zaghdurem_offset_to_position(source: &[u8], offset: usize) -> Position
    ensures { result ≡ position_of source.now offset }
{
    text::offset_to_position(source, offset)
}

// A word of a record of a table; 0 for a number or a place that is none.
#[unsafe(no_mangle)]
pub extern "C" fn zaghdurem_word(table: &[u32], width: u32, number: u32, place: u32) -> u32
    ensures { result ≡ word_at width table.now number place }
{
    tables::word(table, width, number, place)
}

// Lexes a source into a lent table of tokens.
#[unsafe(no_mangle)]
pub extern "C" fn zaghdurem_lex_all(source: &[u8], tokens: &mut [u32]) -> LexedRow
    ensures answer { result ≡ lexed_row (lex_all source.now tokens.old) }
    ensures table { tokens.new ≡ leaves (lex_all source.now tokens.old) source.now tokens.old }
{
    let answer = lex::lex_all(source, tokens);
    answers::lexed_row(answer)
}

// Parses a source into lent tables of tokens, lines, expressions and types.
#[unsafe(no_mangle)]
pub extern "C" fn zaghdurem_parse_line_vector(
    source: &[u8],
    jets: &[u8],
    tokens: &mut [u32],
    lines: &mut [u32],
    exprs: &mut [u32],
    types: &mut [u32],
) -> ParsedRow
    ensures answer { result ≡ parsed_row (parse_all source.now jets.now (lent_tables tokens.old lines.old exprs.old types.old)) }
    ensures tables { lent_tables tokens.new lines.new exprs.new types.new ≡ tables_after source.now jets.now (lent_tables tokens.old lines.old exprs.old types.old) }
{
    let answer = ast::parse_line_vector(source, jets, tokens, lines, exprs, types);
    answers::parsed_row(answer)
}

// Reads a source into eight lent tables.
#[unsafe(no_mangle)]
pub extern "C" fn zaghdurem_read(
    source: &[u8],
    jets: &[u8],
    tokens: &mut [u32],
    lines: &mut [u32],
    exprs: &mut [u32],
    types: &mut [u32],
    names: &mut [u32],
    nodes: &mut [u32],
    errors: &mut [u32],
    work: &mut [u32],
) -> ReadRow
    ensures answer { result ≡ read_row (answer_of (read_into source.now jets.now (eight tokens.old lines.old exprs.old types.old names.old nodes.old errors.old work.old))) }
    ensures tables { eight tokens.new lines.new exprs.new types.new names.new nodes.new errors.new work.new ≡ read_tables (read_into source.now jets.now (eight tokens.old lines.old exprs.old types.old names.old nodes.old errors.old work.old)) (eight tokens.old lines.old exprs.old types.old names.old nodes.old errors.old work.old) }
{
    let answer = reader::read(
        source, jets, tokens, lines, exprs, types, names, nodes, errors, work,
    );
    answers::read_row(answer)
}

// A span as a host says it.
fn span(start: u32, len: u32) -> Span
    ensures { result ≡ record { start = record { 0 = start }; len = len } }
{
    Span {
        start: ByteOffset(start),
        len,
    }
}

// The part of the source where a name stands; empty if there is no such name, or if it stands outside.
#[unsafe(no_mangle)]
pub extern "C" fn zaghdurem_name_text(
    source: &[u8],
    names: &[u32],
    count: u32,
    number: u32,
) -> PartRow
    ensures { result ≡ part_row (part_in (length source.now) (name_span names.now count number)) }
{
    answers::part_row(access::name_part(source, names, count, NameNo(number)))
}

// A span as a part of the source: itself if it lies inside, else an empty part.
#[unsafe(no_mangle)]
pub extern "C" fn zaghdurem_span_text(source: &[u8], start: u32, len: u32) -> PartRow
    ensures { result ≡ part_row (part_in (length source.now) (record { start = record { 0 = start }; len = len })) }
{
    answers::part_row(access::span_part(source.len(), span(start, len)))
}

// The first root behind the name number `after`, 0 to begin; 0 if there is none.
#[unsafe(no_mangle)]
pub extern "C" fn zaghdurem_next_root(
    names: &[u32],
    named: u32,
    nodes: &[u32],
    made: u32,
    after: u32,
) -> u32
    ensures { result ≡ next_root names.now named nodes.now made after }
{
    let next = access::next_root(names, named, nodes, made, NameNo(after));
    next.0
}

// Reads a source into eight lent tables and writes its listing into a lent output.
#[unsafe(no_mangle)]
pub extern "C" fn zaghdurem_list(
    source: &[u8],
    jets: &[u8],
    tokens: &mut [u32],
    lines: &mut [u32],
    exprs: &mut [u32],
    types: &mut [u32],
    names: &mut [u32],
    nodes: &mut [u32],
    errors: &mut [u32],
    work: &mut [u32],
    out: &mut [u8],
) -> ListedRow
    ensures answer { result ≡ listed_row (list_answer (listing source.now (read_into source.now jets.now (eight tokens.old lines.old exprs.old types.old names.old nodes.old errors.old work.old))) (length out.old)) }
    ensures output { out.new ≡ listed_in (listing source.now (read_into source.now jets.now (eight tokens.old lines.old exprs.old types.old names.old nodes.old errors.old work.old))) out.old }
    ensures tables { eight tokens.new lines.new exprs.new types.new names.new nodes.new errors.new work.new ≡ read_tables (read_into source.now jets.now (eight tokens.old lines.old exprs.old types.old names.old nodes.old errors.old work.old)) (eight tokens.old lines.old exprs.old types.old names.old nodes.old errors.old work.old) }
{
    let answer = listing::list(
        source, jets, tokens, lines, exprs, types, names, nodes, errors, work, out,
    );
    answers::listed_row(answer)
}

// A packed byte of a literal; 0 past the last, and from a span that is no literal.
#[unsafe(no_mangle)]
pub extern "C" fn zaghdurem_literal_byte(source: &[u8], start: u32, len: u32, index: u32) -> u32
    ensures { result ≡ literal_byte source.now (record { start = record { 0 = start }; len = len }) index }
{
    literals::literal_byte(source, span(start, len), index) as u32
}
