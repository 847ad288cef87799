// Tests on a token's text: the lengths of literals, exponents, jets.
#![tactic(auto)]

ghost use Rattle.std.specs.Prelude.{◌≡◌, ◌||◌, ◌+◌, ◌-◌, ◌*◌, ◌^◌, ◌≤◌, ◌<◌, length, drop};
ghost use Rattle.records.specs.Refusals.{refusal_row as row_with, row_of};
ghost use Rattle.checks.specs.Powers.{log2 as log_of, exponent_of};
ghost use Rattle.checks.specs.Jets.{pieces, is_one_of};
ghost use Rattle.checks.specs.Code.{exponent_cap, capped, is_first, is_behind, is_later, first_of, last_of, block_size, any_edged};
ghost use Rattle.checks.specs.Checks.{refused_at, word_verdict, fail_verdict, jet_verdict, power_verdict};

use classes::Class;
use records::numbers::ByteOffset;
use records::refusals::Refusal;

// Why the grammar refuses a token.
#[derive(Clone, Copy)]
pub enum Fault {
    ParseFailed,
    BadWordLength(u32),
    EntropyInsufficient(u32),
    EntropyTooMuch(u32),
    UnknownJet,
    Bad2ExpNumber(u32),
    NumberOutOfRange,
    TooDeep,
}

// Bytes of `2^`, and of `jet_`.
const EXPONENT_PREFIX: usize = 2;

const JET_PREFIX: usize = 4;

const RADIX_10: usize = 10;

// The byte of the digit 0.
const DIGIT_BASE: u8 = b'0';

// The bits that a `fail` takes.
const FAIL_LEAST: u32 = 128;

const FAIL_MOST: u32 = 512;

// No source has a literal of 2^32 bits, and an exponent is below 2^10.
const WORD_BOUND: u32 = 32;

const POWER_BOUND: u32 = 10;

// The largest exponent that is read as a number. All above it count as one.
const EXPONENT_MOST: usize = 4294967295;

const EXPONENT_CAP: usize = EXPONENT_MOST + 1;

// The offsets of the jet list that are tested together.
const BLOCK: usize = 64;

// A row of the table of refusals.
fn row(no: u32, at: ByteOffset, value: u32) -> Refusal
    ensures { result ≡ row_with no at.0 value }
{
    Refusal {
        no,
        value,
        place: at.0 as usize,
    }
}

impl Fault {
    // The fault as a row of the table of refusals, at a place.
    pub fn row(self, at: ByteOffset) -> Refusal
        ensures { result ≡ row_of (refused_at at.0 self) }
    {
        match self {
            Fault::ParseFailed => row(Refusal::PARSE_FAILED, at, 0),
            Fault::BadWordLength(bits) => row(Refusal::BAD_WORD_LENGTH, at, bits),
            Fault::EntropyInsufficient(bits) => row(Refusal::SHORT_FAIL, at, bits),
            Fault::EntropyTooMuch(bits) => row(Refusal::LONG_FAIL, at, bits),
            Fault::UnknownJet => row(Refusal::UNKNOWN_JET, at, 0),
            Fault::Bad2ExpNumber(exponent) => row(Refusal::BAD_POWER, at, exponent),
            Fault::NumberOutOfRange => row(Refusal::BIG_EXPONENT, at, 0),
            Fault::TooDeep => row(Refusal::TOO_DEEP, at, 0),
        }
    }
}

// 2^k, in 32 bits.
fn power_of_two(k: u32) -> u32
    requires { k < 32 }
    ensures { result ≡ 2 ^ k }
{
    1 << k
}

// The k below the bound with 2^k = n, if there is one.
#[tactic(auto, unfolding(crate::specs::Powers::log2))]
fn exact_log2(bound: u32, n: u32) -> Option<u32>
    requires { bound ≤ 32 }
    ensures { result ≡ log_of bound n }
{
    for k in (0..bound).rev() {
        if n == power_of_two(k) {
            return Some(k);
        }
    }
    None
}

// Whether `const` takes a literal of so many bits.
#[tactic(auto, unfolding(crate::specs::Checks::word_verdict))]
pub fn check_word(bits: u32) -> Result<(), Fault>
    ensures { result ≡ word_verdict bits }
{
    match exact_log2(WORD_BOUND, bits) {
        Some(_) => Ok(()),
        None => Err(Fault::BadWordLength(bits)),
    }
}

// Whether `fail` takes a literal of so many bits.
#[tactic(auto, unfolding(crate::specs::Checks::fail_verdict))]
pub fn check_fail(bits: u32) -> Result<(), Fault>
    ensures { result ≡ fail_verdict bits }
{
    if bits < FAIL_LEAST {
        return Err(Fault::EntropyInsufficient(bits));
    }
    if FAIL_MOST < bits {
        return Err(Fault::EntropyTooMuch(bits));
    }
    Ok(())
}

// Whether the name is the piece that begins at an offset of the jet list.
#[tactic(auto, using(crate::proofs::Lines::first_not, crate::proofs::Lines::first_ends))]
fn is_piece(jets: &[u8], at: usize, name: &[u8]) -> bool
    requires { at ≤ length jets.now }
    ensures { result ≡ is_first name.now (drop at jets.now) }
{
    if classes::stands(&jets[at..], name) {
        name.len() == classes::run(jets, at, Class::NotLf)
    } else {
        false
    }
}

// Whether a newline stands at an offset, and the name is the piece behind it.
#[tactic(auto, unfolding(crate::specs::Code::is_behind))]
fn follows(jets: &[u8], at: usize, name: &[u8]) -> bool
    requires { at < length jets.now }
    ensures { result ≡ is_behind name.now jets.now at }
{
    if jets[at] == b'\n' {
        is_piece(jets, at + 1, name)
    } else {
        false
    }
}

// Whether the name is a piece behind a newline that stands before `end`, from `from` on: offset after offset.
#[tactic(auto, using(crate::proofs::Lines::later_at))]
fn is_later(jets: &[u8], from: usize, end: usize, name: &[u8]) -> bool
    requires { (from ≤ end) × (end ≤ length jets.now) }
    ensures { is_later name.now (drop from jets.now) ≡ result || is_later name.now (drop end jets.now) }
{
    for i in from..end {
        if follows(jets, i, name) {
            return true;
        }
    }
    false
}

// The first byte of a name. The empty name has a newline there: the one behind it.
#[tactic(auto, unfolding(crate::specs::Code::first_of))]
fn first_of(name: &[u8]) -> u8
    ensures { result ≡ first_of name.now }
{
    if name.len() == 0 { b'\n' } else { name[0] }
}

// The last byte of a name. The empty name has a newline there: the one before it.
#[tactic(auto, unfolding(crate::specs::Code::last_of))]
fn last_of(name: &[u8]) -> u8
    ensures { result ≡ last_of name.now }
{
    if name.len() == 0 {
        b'\n'
    } else {
        name[name.len() - 1]
    }
}

// Whether an offset of the block has a newline, behind it m bytes with this first and last one, and a newline. The loop
// has no branch and no other way out, so that it is compiled to tests of 16 bytes at once.
fn any_edged(jets: &[u8], at: usize, m: usize, first: u8, last: u8) -> bool
    requires { at + m + block_size < length jets.now }
    ensures { result ≡ any_edged jets.now m first last at block_size }
{
    let mut any = false;
    for k in 0..BLOCK {
        let i = at + k;
        any = any
            | ((jets[i] == b'\n')
                & (jets[i + 1] == first)
                & (jets[i + m] == last)
                & (jets[i + m + 1] == b'\n'));
    }
    any
}

// Whether the name is a piece behind a newline of the block. Only a block that has its first and last byte between
// newlines is searched: most have not.
#[tactic(auto, using(crate::proofs::Edges::block_none))]
fn is_in_block(jets: &[u8], at: usize, name: &[u8], first: u8, last: u8) -> bool
    requires first_value { (first ≡ first_of name.now) × (last ≡ last_of name.now) }
    requires block_size_in_bounds { at + length name.now + block_size < length jets.now }
    ensures { is_later name.now (drop at jets.now) ≡ result || is_later name.now (drop (at + block_size) jets.now) }
{
    if any_edged(jets, at, name.len(), first, last) {
        is_later(jets, at, at + BLOCK, name)
    } else {
        false
    }
}

// Whether the name is a piece of the jet list: the first one, or one behind a newline, block after block.
#[tactic(auto, using(crate::proofs::Lines::listed_split, crate::proofs::Lines::listed_last))]
fn is_listed(jets: &[u8], name: &[u8]) -> bool
    ensures { result ≡ is_one_of name.now (pieces jets.now) }
{
    if is_piece(jets, 0, name) {
        return true;
    }
    let first = first_of(name);
    let last = last_of(name);
    let mut at: usize = 0;
    while name.len() + BLOCK < jets.len() - at {
        if is_in_block(jets, at, name, first, last) {
            return true;
        }
        at += BLOCK;
    }
    is_later(jets, at, jets.len(), name)
}

// Whether a jet is known, by its token's text.
#[tactic(auto, using(crate::proofs::Lines::known_listed), unfolding(crate::specs::Checks::jet_verdict))]
pub fn check_jet(jets: &[u8], text: &[u8]) -> Result<(), Fault>
    ensures { result ≡ jet_verdict jets.now text.now }
{
    if is_listed(jets, &text[JET_PREFIX.min(text.len())..]) {
        Ok(())
    } else {
        Err(Fault::UnknownJet)
    }
}

// A number with the decimal digit d more, held below the cap.
#[tactic(auto, unfolding(crate::specs::Code::capped))]
fn push_digit(n: usize, d: u8) -> usize
    requires { n ≤ exponent_cap }
    ensures { result ≡ capped (10 * n + (d - 48)) }
{
    let next = RADIX_10 * n + d.saturating_sub(DIGIT_BASE) as usize;
    next.min(EXPONENT_CAP)
}

// The exponent behind `2^`, which may have any number of digits: its value if that is below the cap.
#[tactic(auto, using(crate::proofs::Powers::exponent_end, crate::proofs::Lines::prefix_rest))]
fn exponent(text: &[u8]) -> usize
    ensures { result ≡ capped (exponent_of text.now) }
{
    let mut n: usize = 0;
    for d in &text[EXPONENT_PREFIX.min(text.len())..] {
        n = push_digit(n, *d);
    }
    n
}

// The n of 2^(2^n), by the token's text.
#[tactic(auto, using(crate::proofs::Powers::power_found, crate::proofs::Powers::power_big, crate::proofs::Powers::power_fits))]
pub fn check_power(text: &[u8]) -> Result<u32, Fault>
    ensures { result ≡ power_verdict text.now }
{
    let e = exponent(text);
    if EXPONENT_MOST < e {
        return Err(Fault::NumberOutOfRange);
    }
    let e = e as u32;
    exact_log2(POWER_BOUND, e).ok_or(Fault::Bad2ExpNumber(e))
}
