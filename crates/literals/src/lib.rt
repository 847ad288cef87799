// What literals say: how many bits they have, and their packed bytes.
#![tactic(auto)]

ghost use Rattle.std.specs.Prelude.{◌≡◌, true, ◌-◌, ◌^◌, ◌≤◌, ◌<◌, get_or};
ghost use Rattle.records.specs.Limits.{source_limit};
ghost use Rattle.classes.specs.declared.Class.TheVariants.{Bit, LowHex};
ghost use Rattle.literals.specs.Literals.{bit_length, value_of, every, is_digits, bin_bits, hex_bits, bits_of, packed_byte, literal_byte};
ghost use Rattle.literals.specs.Code.{nibble_at};

use classes::Class;
use records::Span;
use records::kinds::TokenKind;

// Bytes of `0b` and `0x`.
const PREFIX: u32 = 2;

const PREFIX_BYTES: usize = PREFIX as usize;

// Bits that a hex digit says; binary and hex digits that say a byte.
const BITS_PER_HEX: u32 = 4;

const BITS_PER_BYTE: usize = 8;

const HEX_PER_BYTE: usize = 2;

const RADIX_2: u8 = 2;

const RADIX_16: u8 = 16;

// A digit's byte less its value: of 0 to 9, and of a to f.
const DIGIT_BASE: u8 = b'0';

const LETTER_BASE: u8 = b'a' - 10;

// How many bits a literal has, by its kind and how many bytes it has.
pub fn bit_length(kind: TokenKind, len: u32) -> u32
    requires { len ≤ source_limit }
    ensures { result ≡ bit_length kind len }
{
    if kind == TokenKind::BIN_LITERAL {
        return len.saturating_sub(PREFIX);
    }
    if kind == TokenKind::HEX_LITERAL {
        return BITS_PER_HEX * len.saturating_sub(PREFIX);
    }
    0
}

// The value of a digit 0 to 9, a to f.
fn digit_value(d: u8) -> u8
    ensures { result ≡ value_of d }
{
    match d {
        b'0'..=b'9' => d - DIGIT_BASE,
        _ => d.saturating_sub(LETTER_BASE),
    }
}

// The value of the digit at i; 0 past the end.
fn value_at(digits: &[u8], i: usize) -> u8
    ensures { result ≡ value_of (get_or digits.now i 0) }
{
    digit_value(text::byte_at(digits, i))
}

// Whether a text is the prefix and digits of the class.
fn is_digits(text: &[u8], prefix: &[u8], c: Class) -> bool
    ensures { result ≡ is_digits prefix.now c text.now }
{
    classes::stands(text, prefix)
        & (PREFIX_BYTES < text.len())
        & (PREFIX_BYTES + classes::run(text, PREFIX_BYTES, c) == text.len())
}

// The number that four binary digits from `at` on say.
#[tactic(auto, using(crate::proofs::Packed::bit_small))]
fn bin_nibble(digits: &[u8], at: usize) -> u8
    requires { (every Bit digits.now ≡ true) × (at < 2 ^ 60) }
    ensures { (result ≡ nibble_at digits.now at) × (result < 16) }
{
    let a = value_at(digits, at);
    let b = value_at(digits, at + 1);
    let c = value_at(digits, at + 2);
    let d = value_at(digits, at + 3);
    RADIX_2 * (RADIX_2 * (RADIX_2 * a + b) + c) + d
}

// A byte of binary digits,
fn bin_byte(digits: &[u8], index: usize) -> u8
    requires { (every Bit digits.now ≡ true) × (index < 2 ^ 32) }
    ensures { result ≡ packed_byte (bin_bits digits.now) index }
{
    let at = BITS_PER_BYTE * index;
    RADIX_16 * bin_nibble(digits, at) + bin_nibble(digits, at + BITS_PER_HEX as usize)
}

// of hex digits,
#[tactic(auto, using(crate::proofs::Packed::hex_small))]
fn hex_byte(digits: &[u8], index: usize) -> u8
    requires { (every LowHex digits.now ≡ true) × (index < 2 ^ 32) }
    ensures { result ≡ packed_byte (hex_bits digits.now) index }
{
    let at = HEX_PER_BYTE * index;
    RADIX_16 * value_at(digits, at) + value_at(digits, at + 1)
}

// and of any text.
fn text_byte(text: &[u8], index: usize) -> u8
    requires { index < 2 ^ 32 }
    ensures { result ≡ packed_byte (bits_of text.now) index }
{
    if is_digits(text, b"0b", Class::Bit) {
        return bin_byte(&text[PREFIX_BYTES..], index);
    }
    if is_digits(text, b"0x", Class::LowHex) {
        return hex_byte(&text[PREFIX_BYTES..], index);
    }
    0
}

// A byte of a literal by its index; 0 past the last, or where the span is no literal.
pub fn literal_byte(source: &[u8], span: Span, index: u32) -> u8
    ensures { result ≡ literal_byte source.now span index }
{
    let start = span.start.0 as usize;
    let end = start + span.len as usize;
    if source.len() < end {
        return 0;
    }
    text_byte(&source[start..end], index as usize)
}
