// The text of a source: whether it is UTF-8 (refusal 3), and the line and column of an offset. The bytes here are of any
// length, so a place is no `ByteOffset`.
#![tactic(auto)]

ghost use Rattle.std.specs.Prelude.{◌≡◌, [], ◌∷◌, ◌+◌, ◌≤◌, ◌<◌, ◌^◌, length, get_or, drop};
ghost use Rattle.std.specs.List.{list_all};
ghost use Rattle.text.specs.Check.{begins_by, char_len, check_from, check_text, row_of_text_error};
ghost use Rattle.text.specs.Utf8.{utf8_1, utf8_2, utf8_3, utf8_4};
ghost use Rattle.text.specs.Place.{begins_char, position_of};

use records::refusals::{Cause, Refusal};

// Bytes that are no text, and where: the first byte of the first ill-formed sequence.
#[derive(Clone, Copy)]
pub struct TextError {
    pub at: usize,
}

impl Cause for TextError {
    ghost row_of = { row_of_text_error };

    fn row(self) -> Refusal {
        Refusal {
            no: Refusal::NOT_UTF8,
            value: 0,
            place: self.at,
        }
    }
}

// The byte at i; 0 past the end, which is in no range of a character's later bytes and begins no token.
pub fn byte_at(s: &[u8], i: usize) -> u8
    ensures { result ≡ get_or s.now i 0 }
{
    if i < s.len() { s[i] } else { 0 }
}

// RFC 3629's UTF8-1, on the bytes of a character; its lines are written as the definition has them.
fn is_one(a: u8) -> bool
    ensures { result ≡ begins_by utf8_1 (a ∷ []) }
{
    (0x00 <= a) & (a <= 0x7F)
}

// UTF8-2.
fn is_two(a: u8, b: u8) -> bool
    ensures { result ≡ begins_by utf8_2 (a ∷ b ∷ []) }
{
    ((0xC2 <= a) & (a <= 0xDF)) & ((0x80 <= b) & (b <= 0xBF))
}

// UTF8-3.
fn is_three(a: u8, b: u8, c: u8) -> bool
    ensures { result ≡ begins_by utf8_3 (a ∷ b ∷ c ∷ []) }
{
    (((0xE0 <= a) & (a <= 0xE0)) & (((0xA0 <= b) & (b <= 0xBF)) & ((0x80 <= c) & (c <= 0xBF))))
        | ((((0xE1 <= a) & (a <= 0xEC))
            & (((0x80 <= b) & (b <= 0xBF)) & ((0x80 <= c) & (c <= 0xBF))))
            | ((((0xED <= a) & (a <= 0xED))
                & (((0x80 <= b) & (b <= 0x9F)) & ((0x80 <= c) & (c <= 0xBF))))
                | (((0xEE <= a) & (a <= 0xEF))
                    & (((0x80 <= b) & (b <= 0xBF)) & ((0x80 <= c) & (c <= 0xBF))))))
}

// UTF8-4.
fn is_four(a: u8, b: u8, c: u8, d: u8) -> bool
    ensures { result ≡ begins_by utf8_4 (a ∷ b ∷ c ∷ d ∷ []) }
{
    (((0xF0 <= a) & (a <= 0xF0))
        & (((0x90 <= b) & (b <= 0xBF))
            & (((0x80 <= c) & (c <= 0xBF)) & ((0x80 <= d) & (d <= 0xBF)))))
        | ((((0xF1 <= a) & (a <= 0xF3))
            & (((0x80 <= b) & (b <= 0xBF))
                & (((0x80 <= c) & (c <= 0xBF)) & ((0x80 <= d) & (d <= 0xBF)))))
            | (((0xF4 <= a) & (a <= 0xF4))
                & (((0x80 <= b) & (b <= 0x8F))
                    & (((0x80 <= c) & (c <= 0xBF)) & ((0x80 <= d) & (d <= 0xBF))))))
}

// How many bytes the character at the front has; 0 where there is none.
fn char_len(s: &[u8]) -> usize
    requires { 0 < length s.now }
    ensures { (result ≡ char_len s.now) × (result ≤ length s.now) }
{
    let a = byte_at(s, 0);
    if is_one(a) {
        return 1;
    }
    let b = byte_at(s, 1);
    if is_two(a, b) {
        return 2;
    }
    let c = byte_at(s, 2);
    if is_three(a, b, c) {
        return 3;
    }
    if is_four(a, b, c, byte_at(s, 3)) {
        return 4;
    }
    0
}

// Bytes of a block. A loop that looks at all of them, with no early exit, takes many at a time; and the line feeds of so few fit a
// byte, so that they are counted in bytes.
const BLOCK: usize = 128;

// Whether each byte is a character, by UTF8-1.
fn is_ascii(block: &[u8]) -> bool
    ensures { result ≡ list_all (λ b. begins_by utf8_1 (b ∷ [])) block.now }
{
    let mut all = true;
    for byte in block {
        all = all & is_one(*byte);
    }
    all
}

// Where the check may begin: behind the blocks at the front that are ASCII.
fn ascii_front(source: &[u8]) -> usize
    ensures { (result ≤ length source.now) × (check_text source.now ≡ check_from result 0 (drop result source.now)) }
{
    let mut passed: usize = 0;
    for block in source.chunks(BLOCK) {
        if !is_ascii(block) {
            return passed;
        }
        passed += block.len();
    }
    passed
}

// Whether the bytes are UTF-8, or where they first are not. Most texts are ASCII, or begin so.
pub fn check_text(source: &[u8]) -> Result<(), TextError>
    ensures { result ≡ check_text source.now }
{
    // No `for` fits: a turn goes as far as its character.
    let mut i = ascii_front(source);
    while i < source.len() {
        let n = char_len(&source[i..]);
        if n == 0 {
            return Err(TextError { at: i });
        }
        i += n;
    }
    Ok(())
}

// A line and a column, both from 1.
#[repr(C)]
#[derive(Clone, Copy)]
pub struct Position {
    pub line: usize,
    pub column: usize,
}

fn begins_char(b: u8) -> bool
    ensures { result ≡ begins_char b }
{
    !((128 <= b) & (b <= 191))
}

// The line feeds among a block's bytes.
fn line_feeds(block: &[u8]) -> u8
    requires { length block.now ≤ 128 }
    ensures { result + 1 ≡ (position_of block.now (length block.now)).line }
{
    let mut feeds: u8 = 0;
    for byte in block {
        feeds += u8::from(*byte == b'\n');
    }
    feeds
}

// The line behind bytes.
fn line_behind(bytes: &[u8]) -> usize
    ensures { result ≡ (position_of bytes.now (length bytes.now)).line }
{
    let mut line: usize = 1;
    for block in bytes.chunks(BLOCK) {
        line += usize::from(line_feeds(block));
    }
    line
}

// The column behind bytes. Going back from their end, it looks no further than the last line feed.
fn column_behind(bytes: &[u8]) -> usize
    ensures { result ≡ (position_of bytes.now (length bytes.now)).column }
{
    let mut column: usize = 1;
    for byte in bytes.iter().rev() {
        if *byte == b'\n' {
            return column;
        }
        column += usize::from(begins_char(*byte));
    }
    column
}

// The line and column of an offset. An offset past the end counts as the end.
pub fn offset_to_position(source: &[u8], offset: usize) -> Position
    ensures { result ≡ position_of source.now offset }
{
    let before = &source[..offset.min(source.len())];
    Position {
        line: line_behind(before),
        column: column_behind(before),
    }
}
