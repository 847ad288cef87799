// Names: the Rust's `parse_inner`, step 1, over lent tables.
#![tactic(auto)]

ghost use Rattle.std.specs.Prelude.{◌≡◌, List, ◌*◌, ◌≤◌, length};
ghost use Rattle.records.specs.Limits.{record_limit, name_width, error_width};
ghost use Rattle.grammar.specs.Tree.{Line};
ghost use Rattle.names.specs.Held.{HeldLines, Entered};
ghost use Rattle.names.specs.Code.{known_entry, legal_entry, name_entry, line_entry, Enters};

use records::kinds::ErrorKind;
use records::numbers::{ByteOffset, ExprNo, LineNo, NameNo, NodeNo};
use records::{ErrorRecord, ExprRecord, LineRecord, NameRecord, Span};

// How many names and errors there are.
#[derive(Clone, Copy)]
pub struct NameCounts {
    pub names: u32,
    pub errors: u32,
}

// What a line does: a name more, another record for a name that is known, an error more, or nothing.
#[derive(Clone, Copy)]
pub enum Entry {
    New(NameRecord),
    Known(NameNo, NameRecord),
    Wrong(ErrorRecord),
    Nothing,
}

// What a line with this name does, if the name is known: a first expression counts, a later one is an error.
#[tactic(auto, unfolding(crate::specs::Code::known_entry))]
fn known_entry(exprs: &[u32], names: &[u32], known: NameNo, name: Span, expr: ExprNo) -> Entry
    ensures { result ≡ known_entry exprs.now names.now known.0 name expr.0 }
{
    if tables::word(names, NameRecord::WORDS, known.0, NameRecord::EXPR) == 0 {
        return Entry::Known(
            known,
            NameRecord {
                span: symbols::name_span(names, known),
                expr,
                node: NodeNo(0),
            },
        );
    }
    if expr.0 == 0 {
        return Entry::Nothing;
    }
    let start = tables::word(exprs, ExprRecord::WORDS, expr.0, ExprRecord::START);
    Entry::Wrong(ErrorRecord {
        kind: ErrorKind::REPEATED,
        start: ByteOffset(start),
        name,
    })
}

// What a line with this legal name does; the name is known unless its number is 0.
#[tactic(auto, unfolding(crate::specs::Code::legal_entry))]
fn legal_entry(exprs: &[u32], names: &[u32], known: NameNo, name: Span, expr: ExprNo) -> Entry
    ensures { result ≡ legal_entry exprs.now names.now known.0 name expr.0 }
{
    if known.0 == 0 {
        return Entry::New(NameRecord {
            span: name,
            expr,
            node: NodeNo(0),
        });
    }
    known_entry(exprs, names, known, name, expr)
}

// What a line with this name and this expression does.
#[tactic(auto, unfolding(crate::specs::Code::name_entry))]
fn name_entry(
    source: &[u8],
    exprs: &[u32],
    names: &[u32],
    count: u32,
    name: Span,
    expr: ExprNo,
) -> Entry
    ensures { result ≡ name_entry source.now exprs.now names.now count name expr.0 }
{
    let text = cursor::span_text(source, name);
    if symbols::is_illegal(text) {
        return Entry::Wrong(ErrorRecord {
            kind: ErrorKind::ILLEGAL,
            start: name.start,
            name,
        });
    }
    legal_entry(
        exprs,
        names,
        symbols::find_name(source, names, count, text),
        name,
        expr,
    )
}

// What the line of this number does.
#[tactic(auto, unfolding(crate::specs::Code::line_entry))]
fn line_entry(
    source: &[u8],
    lines: &[u32],
    number: LineNo,
    exprs: &[u32],
    names: &[u32],
    count: u32,
) -> Entry
    ensures { result ≡ line_entry source.now lines.now exprs.now names.now count number.0 }
{
    let i = number.0;
    let name = tables::span(lines, LineRecord::WORDS, i, LineRecord::NAME_START);
    let expr = tables::word(lines, LineRecord::WORDS, i, LineRecord::EXPR);
    name_entry(source, exprs, names, count, name, ExprNo(expr))
}

// Enters the line of this number: its name, or an error. The answer is how many there are then.
fn enter_line(
    source: &[u8],
    lines: &[u32],
    number: LineNo,
    exprs: &[u32],
    names: &mut [u32],
    errors: &mut [u32],
    counts: NameCounts,
) -> NameCounts
    ensures { Enters (line_entry source.now lines.now exprs.now names.old counts.names number.0) counts result names.old names.new errors.old errors.new }
{
    match line_entry(source, lines, number, exprs, names, counts.names) {
        Entry::New(name) => {
            let made = cursor::next_number(counts.names);
            tables::write_record(names, made, name);
            NameCounts {
                names: made,
                ..counts
            }
        }
        Entry::Known(known, name) => {
            tables::write_record(names, known.0, name);
            counts
        }
        Entry::Wrong(error) => {
            let made = cursor::next_number(counts.errors);
            tables::write_record(errors, made, error);
            NameCounts {
                errors: made,
                ..counts
            }
        }
        Entry::Nothing => counts,
    }
}

// The Rust's `parse_inner`, step 1: the table of names and the errors of lines.
pub fn enter_names(
    source: &[u8],
    lines: &[u32],
    count: u32,
    exprs: &[u32],
    names: &mut [u32],
    errors: &mut [u32],
) -> NameCounts
    requires { (record_limit * name_width ≤ length names.old) × (record_limit * error_width ≤ length errors.old) }
    ensures { (ls : List Line) → HeldLines source.now lines.now exprs.now count ls → Entered ls result names.old names.new errors.old errors.new }
{
    tables::clear(names, NameRecord::WORDS);
    tables::clear(errors, ErrorRecord::WORDS);
    let mut counts = NameCounts {
        names: 0,
        errors: 0,
    };
    for number in 1..=count {
        counts = enter_line(source, lines, LineNo(number), exprs, names, errors, counts);
    }
    counts
}
