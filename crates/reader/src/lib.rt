// The reader: what a source says, for any bytes, any jet list and any lent tables.
#![tactic(auto)]

ghost use Rattle.std.specs.Prelude.{◌≡◌, [], ◌*◌, ◌≤◌, length, ℕ, List};
ghost use Rattle.records.specs.Limits.{record_limit, name_width, node_width, error_width, work_width};
ghost use Rattle.tables.specs.Tables.{table_of};
ghost use Rattle.grammar.specs.Tree.{Line};
ghost use Rattle.names.specs.Held.{HeldLines};
ghost use Rattle.reader.specs.Reading.{eight, short_to_read_by, read_into, read_tables, answer_of};
ghost use Rattle.reader.specs.Steps.{changes_no_word, Resolves};

use ends::{Counts, ParseError, ReadCounts};
use lex::LexError;
use records::limits::Limits;
use records::{ErrorRecord, NameRecord, NodeRecord, WorkRecord};

// Whether a table of so many words is too short for its records.
#[tactic(auto, unfolding(crate::specs::Reading::short_to_read_by))]
fn is_short(names: usize, nodes: usize, errors: usize, work: usize) -> bool
    ensures { result ≡ short_to_read_by names nodes errors work }
{
    (names < NameRecord::TABLE)
        | (nodes < NodeRecord::TABLE)
        | (errors < ErrorRecord::TABLE)
        | (work < WorkRecord::TABLE)
}

// Sets the records of the four tables behind the parser's, which have room, to zero.
#[tactic(auto, using(tables::proofs::Laws::table_cleared))]
fn clear_resolved(names: &mut [u32], nodes: &mut [u32], errors: &mut [u32], work: &mut [u32])
    requires { (record_limit * name_width ≤ length names.old) × (record_limit * node_width ≤ length nodes.old) × (record_limit * error_width ≤ length errors.old) × (record_limit * work_width ≤ length work.old) }
    ensures names { names.new ≡ table_of name_width [] names.old }
    ensures nodes { nodes.new ≡ table_of node_width [] nodes.old }
    ensures errors { errors.new ≡ table_of error_width [] errors.old }
    ensures work { work.new ≡ table_of work_width [] work.old }
{
    tables::clear(names, NameRecord::WORDS);
    tables::clear(nodes, NodeRecord::WORDS);
    tables::clear(errors, ErrorRecord::WORDS);
    tables::clear(work, WorkRecord::WORDS);
}

// Whether an error changes no word: refusal 1 alone.
fn changes_no_word(error: ParseError) -> bool
    ensures { result ≡ changes_no_word error }
{
    match error {
        ParseError::NotLexed(lexed) => matches!(lexed, LexError::ShortTable),
        ParseError::Refused(_) => false,
    }
}

// Steps 1 and 2 of the Rust's `parse_inner`, and the missing and incomplete errors of its step 3, over the tables of lines that were
// parsed.
fn resolve_lines(
    source: &[u8],
    lines: &[u32],
    exprs: &[u32],
    parsed: Counts,
    names: &mut [u32],
    nodes: &mut [u32],
    errors: &mut [u32],
    work: &mut [u32],
) -> ReadCounts
    requires { (record_limit * name_width ≤ length names.old) × (record_limit * node_width ≤ length nodes.old) × (record_limit * error_width ≤ length errors.old) × (record_limit * work_width ≤ length work.old) }
    ensures { (ls : List Line) → HeldLines source.now lines.now exprs.now parsed.lines ls → Resolves ls parsed result names.old names.new nodes.old nodes.new errors.old errors.new work.old work.new }
{
    let entered = names::enter_names(source, lines, parsed.lines, exprs, names, errors);
    let made = resolve::resolve_names(source, exprs, names, entered.names, nodes, work);
    let met = errors::node_errors(nodes, made, errors, entered.errors);
    ReadCounts {
        parsed,
        names: entered.names,
        nodes: made,
        errors: met,
    }
}

// The reading of a source, for any bytes, any jet list and any lent tables: refusals 1 to 13 in their order, or every record.
pub fn read(
    source: &[u8],
    jets: &[u8],
    tokens: &mut [u32],
    lines: &mut [u32],
    exprs: &mut [u32],
    types: &mut [u32],
    names: &mut [u32],
    nodes: &mut [u32],
    errors: &mut [u32],
    work: &mut [u32],
) -> Result<ReadCounts, ParseError>
    ensures answer { result ≡ answer_of (read_into source.now jets.now (eight tokens.old lines.old exprs.old types.old names.old nodes.old errors.old work.old)) }
    ensures tables { eight tokens.new lines.new exprs.new types.new names.new nodes.new errors.new work.new ≡ read_tables (read_into source.now jets.now (eight tokens.old lines.old exprs.old types.old names.old nodes.old errors.old work.old)) (eight tokens.old lines.old exprs.old types.old names.old nodes.old errors.old work.old) }
{
    if is_short(names.len(), nodes.len(), errors.len(), work.len()) {
        return Err(ParseError::NotLexed(LexError::ShortTable));
    }
    match ast::parse_line_vector(source, jets, tokens, lines, exprs, types) {
        Ok(parsed) => Ok(resolve_lines(source, lines, exprs, parsed, names, nodes, errors, work)),
        Err(error) if changes_no_word(error) => Err(error),
        Err(error) => {
            clear_resolved(names, nodes, errors, work);
            Err(error)
        }
    }
}
