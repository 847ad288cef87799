// What a name's text is, and which name has it, over a lent table of names. Each function takes any words.
#![tactic(auto)]

ghost use Rattle.std.specs.Prelude.{◌≡◌, ◌+◌, ◌-◌, ◌≤◌, length, take, drop};
ghost use Rattle.records.specs.Limits.{name_width};
ghost use Rattle.tables.specs.Tables.{span_at};
ghost use Rattle.checks.specs.Jets.{same};
ghost use Rattle.symbols.specs.Symbols.{illegal, find_from};
ghost use Rattle.symbols.specs.Texts.{name_text, texts_from};

use records::limits::Limits;
use records::numbers::{ByteOffset, NameNo};
use records::{NameRecord, Span};

// Whether no line may have this name: it is `_` or begins with `prim`.
#[tactic(auto, using(crate::proofs::Texts::illegal_blank, crate::proofs::Texts::illegal_prim))]
pub fn is_illegal(text: &[u8]) -> bool
    ensures { result ≡ illegal text.now }
{
    text == b"_".as_slice() || classes::stands(text, b"prim")
}

// The span of a name, from its record.
pub fn name_span(names: &[u32], number: NameNo) -> Span
    ensures { result ≡ span_at name_width names.now number.0 0 }
{
    tables::span(names, NameRecord::WORDS, number.0, NameRecord::START)
}

// The text of a name, as the very part of the source.
#[tactic(auto, unfolding(crate::specs::Texts::name_text))]
fn name_text<'a>(source: &'a [u8], names: &[u32], number: NameNo) -> &'a [u8]
    ensures { result.now ≡ name_text source.now names.now number.0 }
{
    cursor::span_text(source, name_span(names, number))
}

// Words of a record of the table, and how many records count.
const WIDTH: usize = NameRecord::WORDS as usize;

const RECORDS: usize = Limits::RECORDS as usize;

// Bytes of two texts that are compared at once.
const BLOCK: usize = 8;

// Whether two texts have the same block at an offset. It looks at every byte: a loop with no early exit takes them all at once.
#[tactic(auto, using(crate::proofs::Same::block_more))]
fn same_block(a: &[u8], b: &[u8], at: usize) -> bool
    requires { (at + 8 ≤ length a.now) × (at + 8 ≤ length b.now) }
    ensures { result ≡ same (take 8 (drop at a.now)) (take 8 (drop at b.now)) }
{
    let mut all = true;
    for k in 0..BLOCK {
        all = all & (a[at + k] == b[at + k]);
    }
    all
}

// Whether two texts of one length are the same from an offset on.
#[tactic(auto, using(crate::proofs::Same::rest_next, crate::proofs::Same::rest_none))]
fn same_rest(a: &[u8], b: &[u8], from: usize) -> bool
    requires { length a.now ≡ length b.now }
    ensures { result ≡ same (drop from a.now) (drop from b.now) }
{
    for i in from..a.len() {
        if a[i] != b[i] {
            return false;
        }
    }
    true
}

// Whether two texts are the same. Names often share a front and differ behind it. There `==` takes twice as long: it has a call
// for each pair of texts that agree in their first four bytes.
#[tactic(auto, using(crate::proofs::Same::block_next, crate::proofs::Texts::same_apart))]
fn same_text(a: &[u8], b: &[u8]) -> bool
    ensures { result ≡ same a.now b.now }
{
    if a.len() != b.len() {
        return false;
    }
    let blocks = a.len() / BLOCK;
    for block in 0..blocks {
        if !same_block(a, b, block * BLOCK) {
            return false;
        }
    }
    same_rest(a, b, blocks * BLOCK)
}

// The number of the first name behind so many with this text; 0 if there is none.
#[tactic(auto, using(crate::proofs::Texts::found_here, crate::proofs::Texts::found_later, crate::proofs::Texts::found_none))]
fn find_behind(source: &[u8], names: &[u32], passed: u32, count: u32, text: &[u8]) -> NameNo
    ensures { result.0 ≡ find_from (passed + 1) (texts_from source.now names.now (passed + 1) (count - passed)) text.now }
{
    for i in passed..count {
        if same_text(name_text(source, names, NameNo(i + 1)), text) {
            return NameNo(i + 1);
        }
    }
    NameNo(0)
}

// The number of the first name with this text; 0 if there is none. The records that the table has whole come as arrays, whose
// words are read without a look at the table's length.
#[tactic(auto, using(crate::proofs::Texts::found_here, crate::proofs::Texts::found_later, crate::proofs::Records::record_text))]
pub fn find_name(source: &[u8], names: &[u32], count: u32, text: &[u8]) -> NameNo
    ensures { result.0 ≡ find_from 1 (texts_from source.now names.now 1 count) text.now }
{
    let (records, _) = names.as_chunks::<WIDTH>();
    let whole = records.len().min(RECORDS).min(count as usize);
    for i in 0..whole {
        let record = &records[i];
        let span = Span {
            start: ByteOffset(record[NameRecord::START as usize]),
            len: record[NameRecord::LEN as usize],
        };
        if same_text(cursor::span_text(source, span), text) {
            return NameNo(i as u32 + 1);
        }
    }
    find_behind(source, names, whole as u32, count, text)
}
