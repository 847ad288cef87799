// What a user reads from the tables of a reading. Each function takes any words.
#![tactic(auto)]

ghost use Rattle.std.specs.Prelude.{◌≡◌, length};
ghost use Rattle.records.specs.Limits.{node_width};
ghost use Rattle.access.specs.Access.{part_in, name_span, name_text_of, in_table, is_root_at, next_root};

use records::limits::Limits;
use records::numbers::NameNo;
use records::{NameRecord, NodeRecord, Span};

// A span as a part of a source of `size` bytes: itself if it lies inside, else an empty part.
#[tactic(auto, unfolding(crate::specs::Access::part_in))]
pub fn span_part(size: usize, span: Span) -> Span
    ensures { result ≡ part_in size span }
{
    if span.start.0 as usize + span.len as usize <= size {
        span
    } else {
        records::no_span()
    }
}

// The span of a name; none if there is no such name.
#[tactic(auto, unfolding(crate::specs::Access::name_span))]
fn name_span(names: &[u32], count: u32, number: NameNo) -> Span
    ensures { result ≡ name_span names.now count number.0 }
{
    if (1 <= number.0) & (number.0 <= count) {
        symbols::name_span(names, number)
    } else {
        records::no_span()
    }
}

// The part of the source where a name stands; empty if there is no such name, or if it stands outside.
pub fn name_part(source: &[u8], names: &[u32], count: u32, number: NameNo) -> Span
    ensures { result ≡ part_in (length source.now) (name_span names.now count number.0) }
{
    span_part(source.len(), name_span(names, count, number))
}

// The text of a name, as the very part of the source.
#[tactic(auto, unfolding(crate::specs::Access::name_text_of))]
pub fn name_text<'a>(source: &'a [u8], names: &[u32], count: u32, number: NameNo) -> &'a [u8]
    ensures { result.now ≡ name_text_of source.now names.now count number.0 }
{
    cursor::span_text(source, name_span(names, count, number))
}

// Whether the node of this number is one of so many and lies in a table of `len` words.
fn is_node(len: usize, count: u32, number: u32) -> bool
    ensures { result ≡ in_table node_width len count number }
{
    ((1 <= number) & (number <= count))
        & ((number <= Limits::RECORDS) & (number as usize * NodeRecord::WORDS as usize <= len))
}

// Whether the name is a root: its node has no parent.
#[tactic(auto, unfolding(crate::specs::Access::is_root_at))]
pub fn is_root(names: &[u32], named: u32, nodes: &[u32], made: u32, number: NameNo) -> bool
    ensures { result ≡ is_root_at names.now named nodes.now made number.0 }
{
    let node = tables::word(names, NameRecord::WORDS, number.0, NameRecord::NODE);
    let parents = tables::word(nodes, NodeRecord::WORDS, node, NodeRecord::IN_DEGREE);
    let inside = is_node(nodes.len(), made, node);
    ((1 <= number.0) & (number.0 <= named)) & (inside & (parents == 0))
}

// The first root behind the name `after`, 0 to begin; 0 if there is none. Behind the last of so many names is none.
#[tactic(auto, using(crate::proofs::Roots::first_step, crate::proofs::Roots::first_none, crate::proofs::Roots::next_from))]
pub fn next_root(names: &[u32], named: u32, nodes: &[u32], made: u32, after: NameNo) -> NameNo
    ensures { result.0 ≡ next_root names.now named nodes.now made after.0 }
{
    for passed in after.0..named.min(Limits::RECORDS) {
        let number = NameNo(passed + 1);
        if is_root(names, named, nodes, made, number) {
            return number;
        }
    }
    NameNo(0)
}
