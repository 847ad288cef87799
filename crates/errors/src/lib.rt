// The errors of nodes: one for each missing or incomplete node, behind the errors of lines.
#![tactic(auto)]

ghost use Rattle.std.specs.Prelude.{◌≡◌};
ghost use Rattle.records.specs.Limits.{node_width};
ghost use Rattle.tables.specs.Tables.{word_at};
ghost use Rattle.errors.specs.Errors.{Appends};
ghost use Rattle.errors.specs.Code.{error_kind, error_of_node, count_after, table_after};

use records::kinds::{ErrorKind, NodeKind};
use records::numbers::{ByteOffset, NodeNo};
use records::{ErrorRecord, NodeRecord};

// The kind of the error that a node of this kind gives, if it gives one.
#[tactic(auto, unfolding(crate::specs::Code::error_kind))]
fn error_kind(kind: NodeKind) -> Option<ErrorKind>
    ensures { result ≡ error_kind kind.0 }
{
    if kind == NodeKind::MISSING {
        return Some(ErrorKind::MISSING);
    }
    if kind == NodeKind::NO_EXPR {
        return Some(ErrorKind::INCOMPLETE);
    }
    None
}

// An error of this kind at a node's start; its name is that node's span.
fn error_at(nodes: &[u32], number: NodeNo, kind: ErrorKind) -> ErrorRecord
    ensures { result ≡ error_of_node nodes.now number.0 kind }
{
    let n = number.0;
    ErrorRecord {
        kind,
        start: ByteOffset(tables::word(nodes, NodeRecord::WORDS, n, NodeRecord::START)),
        name: tables::span(nodes, NodeRecord::WORDS, n, NodeRecord::SPAN_START),
    }
}

// Writes the error of a node, if it gives one, behind the `before` errors that there are; answers how many there are then.
fn add_error(nodes: &[u32], number: NodeNo, errors: &mut [u32], before: u32) -> u32
    ensures count { result ≡ count_after (error_kind (word_at node_width nodes.now number.0 0)) before }
    ensures table { errors.new ≡ table_after (error_kind (word_at node_width nodes.now number.0 0)) nodes.now number.0 errors.old before }
{
    let node_kind = tables::word(nodes, NodeRecord::WORDS, number.0, NodeRecord::KIND);
    let Some(kind) = error_kind(NodeKind(node_kind)) else {
        return before;
    };
    let made = cursor::next_number(before);
    tables::write_record(errors, made, error_at(nodes, number, kind));
    made
}

// Writes an error for each missing or incomplete node, in node order, behind the `before` errors that there are; answers how many
// errors there are then.
pub fn node_errors(nodes: &[u32], count: u32, errors: &mut [u32], before: u32) -> u32
    ensures { Appends nodes.now count before result errors.old errors.new }
{
    let mut made = before;
    for number in 1..=count {
        made = add_error(nodes, NodeNo(number), errors, made);
    }
    made
}
