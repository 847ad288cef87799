// Compares what the crates give for a stored source with the stored answer: refusals 2 to 5, every token with the words
// behind the last, and the place of every token.
ghost use Rattle.std.specs.Prelude.{◌≡◌, ◌+◌, ◌<◌, ◌≤◌, ◌^◌};

use crate::stored;
use crate::stored::Stored;
use records::limits::Limits;
use records::refusals::Refusal;
use records::{TokenRecord, refusals};

// How many texts were compared, how many places of tokens agree, and how many cases are bad.
#[derive(Clone, Copy)]
pub(crate) struct Tally {
    pub texts: u64,
    pub places: u64,
    pub bad: u64,
}

// Both together.
pub(crate) fn add(a: Tally, b: Tally) -> Tally
    requires { (a.texts < 2 ^ 62) × (a.places < 2 ^ 62) × (a.bad < 2 ^ 62) × (b.texts ≤ 1) × (b.places < 2 ^ 32) × (b.bad ≤ 1) }
    ensures { (result.texts ≡ a.texts + b.texts) × (result.places ≡ a.places + b.places) × (result.bad ≡ a.bad + b.bad) }
{
    Tally {
        texts: a.texts + b.texts,
        places: a.places + b.places,
        bad: a.bad + b.bad,
    }
}

// A case of which nothing can be compared.
pub(crate) fn bad() -> Tally
    ensures { (result.texts ≤ 1) × (result.places < 2 ^ 32) × (result.bad ≤ 1) }
{
    Tally {
        texts: 0,
        places: 0,
        bad: 1,
    }
}

// The same, and bad if the sheet differs.
pub(crate) fn judge(one: Tally, sheet: bool) -> Tally
    requires { (one.texts ≤ 1) × (one.places < 2 ^ 32) × (one.bad ≤ 1) }
    ensures { (result.texts ≤ 1) × (result.places < 2 ^ 32) × (result.bad ≤ 1) }
{
    if sheet { one } else { Tally { bad: 1, ..one } }
}

// Whether the text check gives the stored row of refusal 3, and none where another answer is stored.
fn text_agrees(source: &[u8], a: Stored) -> bool {
    let row = refusals::row(text::check_text(source));
    if a.no == Refusal::NOT_UTF8 {
        return (row.no == a.no) & (row.value == a.value) & (row.place == a.place);
    }
    row.no == Refusal::NONE
}

// Whether the place of the token of this number, counted from 0, is the stored one.
fn place_agrees(source: &[u8], bytes: &[u8], a: Stored, i: usize) -> bool
    requires { (i < 2 ^ 32) × (a.places < 2 ^ 40) }
{
    let p = text::offset_to_position(source, stored::token_start(bytes, i));
    let at = a.places + 2 * i;
    (p.line == stored::number(bytes, at)) & (p.column == stored::number(bytes, at + 1))
}

// Whether a table holds the stored tokens' words, so many, and zeros behind them.
fn words_agree(tokens: &[u32], bytes: &[u8], words: usize) -> bool
    requires { words < 2 ^ 40 }
{
    tokens
        .iter()
        .enumerate()
        .all(|(i, word)| *word == stored::token_word(bytes, i, words))
}

// Whether the lexer gives the stored row of refusals 2 to 5, or lexes the source, into the stored tokens where they are
// stored.
fn tokens_agree(source: &[u8], bytes: &[u8], a: Stored) -> bool
    requires { a.tokens < 2 ^ 32 }
{
    let mut tokens = [0u32; TokenRecord::TABLE];
    let answer = lex::lex_all(source, &mut tokens);
    let row = refusals::row(answer);
    if (a.no != Refusal::NONE) & (a.no <= Refusal::TOO_MANY_TOKENS) {
        return (row.no == a.no) & (row.value == a.value) & (row.place == a.place);
    }
    if a.no != Refusal::NONE {
        return row.no == Refusal::NONE;
    }
    (row.no == Refusal::NONE)
        & (answer.unwrap_or(0) as usize == a.tokens)
        & words_agree(&tokens, bytes, TokenRecord::WORDS as usize * a.tokens)
}

// How many places of tokens agree.
fn places_agree(source: &[u8], bytes: &[u8], a: Stored) -> u64
    requires { (a.tokens < 2 ^ 32) × (a.places < 2 ^ 40) }
    ensures { result ≤ a.tokens }
{
    (0..a.tokens)
        .filter(|i| place_agrees(source, bytes, a, *i))
        .count() as u64
}

// Compares a case.
pub(crate) fn compare(source: &[u8], bytes: &[u8]) -> Tally
    ensures { (result.texts ≤ 1) × (result.places < 2 ^ 32) × (result.bad ≤ 1) }
{
    if !stored::whole(source, bytes) {
        return bad();
    }
    let a = stored::answer(bytes);
    let agree = places_agree(source, bytes, a);
    let with_text = a.no != Refusal::LONG_SOURCE;
    let good = (agree == a.tokens as u64)
        & (!with_text | text_agrees(source, a))
        & tokens_agree(source, bytes, a);
    Tally {
        texts: u64::from(with_text),
        places: agree,
        bad: u64::from(!good),
    }
}
