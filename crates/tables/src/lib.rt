// The lent tables: words of records, read, written and cleared. Each function takes any words, of any length.
#![tactic(auto)]

ghost use Rattle.std.specs.Prelude.{◌≡◌, true, [], min, ◌-◌, ◌*◌, ◌^◌, ◌<◌, ◌≤◌, length, take, set, ◌+◌};
ghost use Rattle.records.specs.Base.{within};
ghost use Rattle.records.specs.Limits.{record_limit};
ghost use Rattle.std.proofs.lemmas.List.Edits.{sets};
ghost use Rattle.tables.specs.Tables.{span_at, table_of, word_at, written};
ghost use Rattle.tables.specs.Zeros.{all_zero, zeroed};

use records::limits::Limits;
use records::numbers::ByteOffset;
use records::{Record, Span};

// Stores items one behind the other from `at` on; past the end nothing.
pub fn put<T: Copy>(out: &mut [T], at: usize, items: &[T])
    requires { at + length items.now < 2 ^ 64 }
    ensures { out.new ≡ sets out.old at items.now }
{
    for (j, item) in items.iter().enumerate() {
        if at + j < out.len() {
            out[at + j] = *item;
        }
    }
}

// Whether there is a record of this number.
fn is_number(number: u32) -> bool
    ensures { result ≡ within 1 record_limit number }
{
    matches!(number, 1..=Limits::RECORDS)
}

// Where a record begins.
fn begin(width: u32, number: u32) -> usize
    requires { within 1 record_limit number ≡ true }
    ensures { (result ≡ (number - 1) * width) × (result < 2 ^ 60) }
{
    (number - 1) as usize * width as usize
}

// A word of a record, counted from 0, of a table whose records have `width` words: 0 for a number or a place that is none.
pub fn word(table: &[u32], width: u32, number: u32, place: u32) -> u32
    ensures { result ≡ word_at width table.now number place }
{
    if !is_number(number) {
        return 0;
    }
    if width <= place {
        return 0;
    }
    let at = begin(width, number) + place as usize;
    table.get(at).copied().unwrap_or(0)
}

// The span of a record whose start is the word at a place, and whose length is the next word.
pub fn span(table: &[u32], width: u32, number: u32, place: u32) -> Span
    requires { place + 1 < 2 ^ 32 }
    ensures { result ≡ span_at width table.now number place }
{
    Span {
        start: ByteOffset(word(table, width, number, place)),
        len: word(table, width, number, place + 1),
    }
}

// Writes the words of a record; for a number that is none, nothing.
pub fn write(table: &mut [u32], width: u32, number: u32, words: &[u32])
    ensures { table.new ≡ written width table.old number words.now }
{
    if is_number(number) {
        let count = words.len().min(width as usize);
        put(table, begin(width, number), &words[..count]);
    }
}

// Writes a record; for a number that is none, nothing.
pub fn write_record<const N: usize, R: Record<N>>(table: &mut [u32], number: u32, row: R)
    ensures { table.new ≡ written N table.old number (R.words_of row) }
{
    let words = row.words();
    write(table, N as u32, number, &words);
}

// The part of a table that is looked at before it is set to zero.
#[derive(Clone, Copy)]
struct Block;

impl Block {
    // Words of a block. The look at so few becomes code with no loop, once for all tables; at 256 it came at every call.
    const WORDS: usize = 64;
}

// Whether all words are zero. It looks at every one: a loop with no early exit takes many words at a time.
fn is_zero(words: &[u32]) -> bool
    ensures { result ≡ all_zero words.now }
{
    let mut seen: u32 = 0;
    for word in words {
        seen |= *word;
    }
    seen == 0
}

// Sets the words from `from` up to `to` to zero; none where `to` comes first, which `fill` on a part would not bear.
fn zero(table: &mut [u32], from: usize, to: usize)
    requires { to ≤ length table.old }
    ensures { table.new ≡ zeroed table.old from to }
{
    for i in from..to {
        table[i] = 0;
    }
}

// The same, but words that are zero already are only read.
fn zero_again(table: &mut [u32], from: usize, to: usize)
    requires { (from ≤ to) × (to ≤ length table.old) }
    ensures { table.new ≡ zeroed table.old from to }
{
    if !is_zero(&table[from..to]) {
        zero(table, from, to);
    }
}

// Sets the records of a table to zero, block by block, since most of a table that is lent again is zero already. The blocks
// are of one length, so that the compiler knows it; what is left behind the last one is set without a look.
pub fn clear(table: &mut [u32], width: u32)
    ensures { table.new ≡ take (length table.old) (table_of width [] table.old) }
{
    let count = (Limits::RECORDS as usize * width as usize).min(table.len());
    let blocks = count / Block::WORDS;
    for block in 0..blocks {
        let from = block * Block::WORDS;
        zero_again(table, from, from + Block::WORDS);
    }
    zero(table, blocks * Block::WORDS, count);
}
