// What a host is handed for an answer: a struct of numbers, which passes over C.
#![tactic(auto)]

ghost use Rattle.std.specs.Prelude.{◌≡◌};
ghost use Rattle.answers.specs.Rows.{lexed_row, parsed_row, read_row, part_row, listed_row};

use ends::{Counts, ParseError, ReadCounts};
use lex::LexError;
use records::{Span, refusals};

// A row of the table of refusals, and how many tokens there are.
#[repr(C)]
#[derive(Clone, Copy)]
pub struct LexedRow {
    pub no: u32,
    pub value: u32,
    pub place: usize,
    pub tokens: u32,
}

// The lexer's answer as numbers.
#[tactic(auto, unfolding(crate::specs::Rows::lexed_row))]
pub fn lexed_row(answer: Result<u32, LexError>) -> LexedRow
    ensures { result ≡ lexed_row answer }
{
    let row = refusals::row(answer);
    LexedRow {
        no: row.no,
        value: row.value,
        place: row.place,
        tokens: answer.unwrap_or(0),
    }
}

// A row of the table of refusals, and how many records there are of each table.
#[repr(C)]
#[derive(Clone, Copy)]
pub struct ParsedRow {
    pub no: u32,
    pub value: u32,
    pub place: usize,
    pub tokens: u32,
    pub lines: u32,
    pub exprs: u32,
    pub types: u32,
}

// The parser's answer as numbers.
#[tactic(auto, unfolding(crate::specs::Rows::parsed_row))]
pub fn parsed_row(answer: Result<Counts, ParseError>) -> ParsedRow
    ensures { result ≡ parsed_row answer }
{
    let row = refusals::row(answer);
    let counts: Counts = answer.unwrap_or_default();
    ParsedRow {
        no: row.no,
        value: row.value,
        place: row.place,
        tokens: counts.tokens,
        lines: counts.lines,
        exprs: counts.exprs,
        types: counts.types,
    }
}

// A row of the table of refusals, and how many records there are of each table.
#[repr(C)]
#[derive(Clone, Copy)]
pub struct ReadRow {
    pub no: u32,
    pub value: u32,
    pub place: usize,
    pub tokens: u32,
    pub lines: u32,
    pub exprs: u32,
    pub types: u32,
    pub names: u32,
    pub nodes: u32,
    pub errors: u32,
}

// The reader's answer as numbers.
#[tactic(auto, unfolding(crate::specs::Rows::read_row))]
pub fn read_row(answer: Result<ReadCounts, ParseError>) -> ReadRow
    ensures { result ≡ read_row answer }
{
    let row = refusals::row(answer);
    let counts: ReadCounts = answer.unwrap_or_default();
    let parsed = counts.parsed;
    ReadRow {
        no: row.no,
        value: row.value,
        place: row.place,
        tokens: parsed.tokens,
        lines: parsed.lines,
        exprs: parsed.exprs,
        types: parsed.types,
        names: counts.names,
        nodes: counts.nodes,
        errors: counts.errors,
    }
}

// A part of the source: where it starts and how many bytes it has.
#[repr(C)]
#[derive(Clone, Copy)]
pub struct PartRow {
    pub start: u32,
    pub len: u32,
}

// A span as numbers.
pub fn part_row(part: Span) -> PartRow
    ensures { result ≡ part_row part }
{
    let start = part.start;
    PartRow {
        start: start.0,
        len: part.len,
    }
}

// Whether the text was written, and how many bytes it has.
#[repr(C)]
#[derive(Clone, Copy)]
pub struct ListedRow {
    pub listed: u32,
    pub len: usize,
}

// The lister's answer as numbers.
#[tactic(auto, unfolding(crate::specs::Rows::listed_row))]
pub fn listed_row(answer: Option<usize>) -> ListedRow
    ensures { result ≡ listed_row answer }
{
    match answer {
        Some(len) => ListedRow { listed: 1, len },
        None => ListedRow { listed: 0, len: 0 },
    }
}
