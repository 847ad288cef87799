// The rows of the listing, put into a lent output.
#![tactic(auto)]

ghost use Rattle.std.specs.Prelude.{◌≡◌, ◌≤◌, ℕ, List, length};
ghost use Rattle.text.specs.Place.{position_of};
ghost use Rattle.print.specs.Text.{decimal, place_word, listing_limit, Puts, Adds};
ghost use Rattle.access.specs.Access.{name_text_of, is_root_at};
ghost use Rattle.rows.specs.Rows.{node_word, error_word, name_word, refused_place, refused_row};
ghost use Rattle.rows.specs.Words.{◌then◌, ended, Room, rows_from, MayPut, AddsRows, count_from, value_end, node_row_at, nodes_at, root_row_at, roots_at, error_row_at, errors_at, listed_at};

use print::Output;
use records::kinds::{ErrorKind, NodeKind};
use records::numbers::NameNo;
use records::refusals::Refusal;
use records::{ErrorRecord, NodeRecord};

// What is listed: the tables of names and nodes of a source, so many of each.
#[derive(Clone, Copy)]
struct Listed<'a> {
    source: &'a [u8],
    names: &'a [u32],
    named: u32,
    nodes: &'a [u32],
    made: u32,
}

// Writes a word and the byte behind it.
fn put_word(out: &mut Output, word: &[u8], end: u8)
    requires { Room out.old (ended word.now end) }
    ensures { Adds (ended word.now end) out.old out.new }
{
    out.put(word);
    out.put_byte(end);
}

// Writes a number and the byte behind it.
fn put_number(out: &mut Output, number: u32, end: u8)
    requires { Room out.old (ended (decimal number) end) }
    ensures { Adds (ended (decimal number) end) out.old out.new }
{
    out.put_decimal(number as usize);
    out.put_byte(end);
}

// Writes the place of an offset, and a space.
fn put_offset(out: &mut Output, source: &[u8], offset: u32)
    requires { Room out.old (ended (place_word (position_of source.now offset)) 32) }
    ensures { Adds (ended (place_word (position_of source.now offset)) 32) out.old out.new }
{
    out.put_place(source, offset as usize);
    out.put_byte(b' ');
}

// The word of a node's kind; none for a number that is no kind's.
#[tactic(auto, unfolding(crate::specs::Rows::node_word, walk::specs::Trees::record_no))]
fn node_word(kind: NodeKind) -> &'static [u8]
    ensures { result.now ≡ node_word kind.0 }
{
    match kind {
        NodeKind::MISSING => b"missing".as_slice(),
        NodeKind::NO_EXPR => b"noexpr".as_slice(),
        NodeKind::REFERENCE => b"ref".as_slice(),
        NodeKind::ASSERT_L => b"assertl".as_slice(),
        NodeKind::ASSERT_R => b"assertr".as_slice(),
        NodeKind::IDEN => b"iden".as_slice(),
        NodeKind::UNIT => b"unit".as_slice(),
        NodeKind::INJ_L => b"injl".as_slice(),
        NodeKind::INJ_R => b"injr".as_slice(),
        NodeKind::TAKE => b"take".as_slice(),
        NodeKind::DROP => b"drop".as_slice(),
        NodeKind::COMP => b"comp".as_slice(),
        NodeKind::CASE => b"case".as_slice(),
        NodeKind::PAIR => b"pair".as_slice(),
        NodeKind::DISCONNECT => b"disconnect".as_slice(),
        NodeKind::WITNESS => b"witness".as_slice(),
        NodeKind::HOLE => b"hole".as_slice(),
        NodeKind::FAIL => b"fail".as_slice(),
        NodeKind::JET => b"jet".as_slice(),
        NodeKind::WORD => b"word".as_slice(),
        _ => b"".as_slice(),
    }
}

// The word of an error's kind; none for a number that is no kind's.
#[tactic(auto, unfolding(crate::specs::Rows::error_word, walk::specs::Trees::record_no))]
fn error_word(kind: ErrorKind) -> &'static [u8]
    ensures { result.now ≡ error_word kind.0 }
{
    match kind {
        ErrorKind::ILLEGAL => b"illegal".as_slice(),
        ErrorKind::REPEATED => b"repeated".as_slice(),
        ErrorKind::MISSING => b"missing".as_slice(),
        ErrorKind::INCOMPLETE => b"incomplete".as_slice(),
        _ => b"".as_slice(),
    }
}

// Writes a name by its number, or `-` for none, and a space.
fn put_name(out: &mut Output, source: &[u8], names: &[u32], named: u32, name: NameNo)
    requires { Room out.old (ended (name_word (name_text_of source.now names.now named) name.0) 32) }
    ensures { Adds (ended (name_word (name_text_of source.now names.now named) name.0) 32) out.old out.new }
{
    if name.0 == 0 {
        out.put(b"- ");
    } else {
        put_word(out, access::name_text(source, names, named, name), b' ');
    }
}

// Writes the front of a node's row: number, kind, name.
fn put_node_front(out: &mut Output, listed: Listed, number: u32, kind: NodeKind, name: NameNo)
    requires { Room out.old (ended (decimal number) 32 then ended (node_word kind.0) 32 then ended (name_word (name_text_of listed.source.now listed.names.now listed.named) name.0) 32) }
    ensures { Adds (ended (decimal number) 32 then ended (node_word kind.0) 32 then ended (name_word (name_text_of listed.entry.source.now listed.entry.names.now listed.entry.named) name.0) 32) out.old out.new }
{
    put_number(out, number, b' ');
    put_word(out, node_word(kind), b' ');
    put_name(out, listed.source, listed.names, listed.named, name);
}

// Writes the back of a node's row: place, left, right.
fn put_node_back(out: &mut Output, source: &[u8], start: u32, left: u32, right: u32)
    requires { Room out.old (ended (place_word (position_of source.now start)) 32 then ended (decimal left) 32 then ended (decimal right) 10) }
    ensures { Adds (ended (place_word (position_of source.now start)) 32 then ended (decimal left) 32 then ended (decimal right) 10) out.old out.new }
{
    put_offset(out, source, start);
    put_number(out, left, b' ');
    put_number(out, right, b'\n');
}

// Writes the row of a node.
fn put_node(out: &mut Output, listed: Listed, number: u32)
    requires { Room out.old (node_row_at listed.source.now listed.names.now listed.named listed.nodes.now number) }
    ensures { Adds (node_row_at listed.entry.source.now listed.entry.names.now listed.entry.named listed.entry.nodes.now number) out.old out.new }
{
    let nodes = listed.nodes;
    let kind = tables::word(nodes, NodeRecord::WORDS, number, NodeRecord::KIND);
    let start = tables::word(nodes, NodeRecord::WORDS, number, NodeRecord::START);
    let name = tables::word(nodes, NodeRecord::WORDS, number, NodeRecord::NAME);
    let left = tables::word(nodes, NodeRecord::WORDS, number, NodeRecord::LEFT);
    let right = tables::word(nodes, NodeRecord::WORDS, number, NodeRecord::RIGHT);
    put_node_front(out, listed, number, NodeKind(kind), NameNo(name));
    put_node_back(out, listed.source, start, left, right);
}

// Writes the row of an error.
fn put_error(out: &mut Output, source: &[u8], errors: &[u32], number: u32)
    requires { Room out.old (error_row_at source.now errors.now number) }
    ensures { Adds (error_row_at source.now errors.now number) out.old out.new }
{
    let kind = tables::word(errors, ErrorRecord::WORDS, number, ErrorRecord::KIND);
    let start = tables::word(errors, ErrorRecord::WORDS, number, ErrorRecord::START);
    let name = tables::span(errors, ErrorRecord::WORDS, number, ErrorRecord::NAME_START);
    put_word(out, error_word(ErrorKind(kind)), b' ');
    put_offset(out, source, start);
    put_word(out, cursor::span_text(source, name), b'\n');
}

// Writes the row of a name, if it is a root.
fn put_root(out: &mut Output, listed: Listed, name: NameNo)
    requires { Room out.old (root_row_at listed.source.now listed.names.now listed.named listed.nodes.now listed.made name.0) }
    ensures { Adds (root_row_at listed.entry.source.now listed.entry.names.now listed.entry.named listed.entry.nodes.now listed.entry.made name.0) out.old out.new }
{
    if access::is_root(listed.names, listed.named, listed.nodes, listed.made, name) {
        let text = access::name_text(listed.source, listed.names, listed.named, name);
        put_word(out, text, b'\n');
    }
}

// Writes the place of a refusal; the end of the source is 0:0 for those that the grammar makes.
fn put_refused_place(out: &mut Output, source: &[u8], refusal: Refusal)
    requires { Room out.old (refused_place source.now refusal) }
    ensures { Adds (refused_place source.now refusal) out.old out.new }
{
    let place = refusal.place;
    if (Refusal::PARSE_FAILED <= refusal.no) & (place == source.len()) {
        out.put(b"0:0");
    } else {
        out.put_place(source, place);
    }
}

// Writes what ends a refusal's row: its number, if it has one.
fn put_value(out: &mut Output, value: u32)
    requires { Room out.old (value_end value) }
    ensures { Adds (value_end value) out.old out.new }
{
    if value == 0 {
        out.put_byte(b'\n');
    } else {
        out.put_byte(b' ');
        put_number(out, value, b'\n');
    }
}

// Writes so many rows from number 1 on, each by what writes one row.
fn put_rows<F: Fn(&mut Output, u32)>(out: &mut Output, count: u32, put_row: F)
    ghost row_of: { (number : ℕ) → List ℕ }
    requires room { Room out.old (rows_from row_of count 1) }
    requires may { MayPut (F.pre put_row) row_of count }
    requires adds { AddsRows (F.post put_row) row_of count }
    ensures { Adds (rows_from row_of count 1) out.old out.new }
{
    for number in 1..=count {
        put_row(out, number);
    }
}

// How many names are roots.
fn count_roots(listed: Listed) -> u32
    ensures { result ≡ count_from (is_root_at listed.entry.names.now listed.entry.named listed.entry.nodes.now listed.entry.made) listed.entry.named 1 }
{
    // A `for`, since nothing says which numbers a chain over `1..=named` yields.
    let mut count = 0;
    for number in 1..=listed.named {
        if access::is_root(
            listed.names,
            listed.named,
            listed.nodes,
            listed.made,
            NameNo(number),
        ) {
            count += 1;
        }
    }
    count
}

// Writes a word and how many rows follow.
fn put_head(out: &mut Output, word: &[u8], count: u32)
    requires { Room out.old (ended word.now 32 then ended (decimal count) 10) }
    ensures { Adds (ended word.now 32 then ended (decimal count) 10) out.old out.new }
{
    put_word(out, word, b' ');
    put_number(out, count, b'\n');
}

// Writes the count of the nodes, and their rows.
fn put_nodes(out: &mut Output, listed: Listed)
    requires { Room out.old (nodes_at listed.source.now listed.names.now listed.named listed.nodes.now listed.made) }
    ensures { Adds (nodes_at listed.entry.source.now listed.entry.names.now listed.entry.named listed.entry.nodes.now listed.entry.made) out.old out.new }
{
    put_head(out, b"nodes", listed.made);
    put_rows(out, listed.made, |out, number| {
        put_node(out, listed, number);
    });
}

// Writes the count of the roots, and their rows.
fn put_roots(out: &mut Output, listed: Listed)
    requires { Room out.old (roots_at listed.source.now listed.names.now listed.named listed.nodes.now listed.made) }
    ensures { Adds (roots_at listed.entry.source.now listed.entry.names.now listed.entry.named listed.entry.nodes.now listed.entry.made) out.old out.new }
{
    let count = count_roots(listed);
    put_head(out, b"roots", count);
    put_rows(out, listed.named, |out, number| {
        put_root(out, listed, NameNo(number));
    });
}

// Writes the count of the errors, and their rows.
fn put_errors(out: &mut Output, source: &[u8], errors: &[u32], count: u32)
    requires { Room out.old (errors_at source.now errors.now count) }
    ensures { Adds (errors_at source.now errors.now count) out.old out.new }
{
    put_head(out, b"errors", count);
    put_rows(out, count, |out, number| {
        put_error(out, source, errors, number);
    });
}

// Writes the nodes, roots and errors that the tables hold, and answers how long that text is.
pub fn list_tables(
    source: &[u8],
    names: &[u32],
    name_count: u32,
    nodes: &[u32],
    node_count: u32,
    errors: &[u32],
    error_count: u32,
    out: &mut [u8],
) -> usize
    requires { length (listed_at source.now names.now name_count nodes.now node_count errors.now error_count) ≤ listing_limit }
    ensures { Puts (listed_at source.now names.now name_count nodes.now node_count errors.now error_count) out.old 0 out.new result }
{
    let listed = Listed {
        source,
        names,
        named: name_count,
        nodes,
        made: node_count,
    };
    let mut output = Output::new(out);
    put_nodes(&mut output, listed);
    put_roots(&mut output, listed);
    put_errors(&mut output, source, errors, error_count);
    output.place()
}

// Writes the row of a refusal, and answers how long it is.
pub fn list_refusal(source: &[u8], refusal: Refusal, out: &mut [u8]) -> usize
    ensures { Puts (refused_row source.now refusal) out.old 0 out.new result }
{
    let mut output = Output::new(out);
    output.put(b"refused ");
    put_number(&mut output, refusal.no, b' ');
    put_refused_place(&mut output, source, refusal);
    put_value(&mut output, refusal.value);
    output.place()
}
