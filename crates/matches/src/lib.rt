// What stands at the front of a text: the longest match of a token or a skip, the Rust's `Token`.
#![tactic(auto)]

ghost use Rattle.std.specs.Prelude.{◌≡◌, ◌<◌, length, get_or, if◌then◌else◌};
ghost use Rattle.matches.specs.Longest.{lex_at};
ghost use Rattle.matches.specs.Code.{is_jet, kind_of, literal, Begins, keys, NotIn};

use classes::Class;
use records::kinds::TokenKind;

// What stands at a place: a token of a kind and a length, bytes to skip, or neither.
#[derive(Clone, Copy)]
pub enum Lexed {
    Token(TokenKind, usize),
    Skip(usize),
    NoMatch,
}

// Hex digits of a CMR literal.
const CMR_DIGITS: usize = 64;

// Whether a symbol is a jet: `jet_` and a name.
#[tactic(auto, unfolding(crate::specs::Code::is_jet))]
fn is_jet(word: &[u8]) -> bool
    ensures { result ≡ is_jet word.now }
{
    match word {
        [b'j', b'e', b't', b'_', name @ ..] => {
            !name.is_empty() && classes::run(name, 0, Class::JetPart) == name.len()
        }
        _ => false,
    }
}

// The kind of a symbol, or of a word that looks like one: a keyword, `_` or a jet.
#[tactic(auto, unfolding(crate::specs::Code::kind_of))]
fn word_kind(word: &[u8]) -> TokenKind
    ensures { result ≡ kind_of word.now }
{
    // What the word is if it is no keyword.
    let other = if is_jet(word) {
        TokenKind::JET
    } else {
        TokenKind::SYMBOL
    };
    match word {
        b"const" => TokenKind::CONST,
        b"assertl" => TokenKind::ASSERT_L,
        b"assertr" => TokenKind::ASSERT_R,
        b"fail" => TokenKind::FAIL,
        b"disconnect" => TokenKind::DISCONNECT,
        b"case" => TokenKind::CASE,
        b"comp" => TokenKind::COMP,
        b"pair" => TokenKind::PAIR,
        b"injl" => TokenKind::INJ_L,
        b"injr" => TokenKind::INJ_R,
        b"take" => TokenKind::TAKE,
        b"drop" => TokenKind::DROP,
        b"unit" => TokenKind::UNIT,
        b"iden" => TokenKind::IDEN,
        b"witness" => TokenKind::WITNESS,
        b"_" => TokenKind::UNDERSCORE,
        _ => other,
    }
}

// A literal of two bytes and at least one digit of the class after them.
fn lex_digits(s: &[u8], kind: TokenKind, class: Class) -> Lexed
    ensures { result ≡ literal kind class s.now }
{
    match classes::run(s, 2, class) {
        0 => Lexed::NoMatch,
        n => Lexed::Token(kind, 2 + n),
    }
}

// What stands at the front of s, which begins with `:`,
#[tactic(auto, using(crate::proofs::Arms::lex_colon))]
fn lex_colon(s: &[u8]) -> Lexed
    requires { Begins ":" s.now }
    ensures { result ≡ lex_at s.now }
{
    match text::byte_at(s, 1) {
        b'=' => Lexed::Token(TokenKind::ASSIGN, 2),
        _ => Lexed::Token(TokenKind::COLON, 1),
    }
}

// with `-`,
#[tactic(auto, using(crate::proofs::Arms::lex_dash))]
fn lex_dash(s: &[u8]) -> Lexed
    requires { Begins "-" s.now }
    ensures { result ≡ lex_at s.now }
{
    match text::byte_at(s, 1) {
        b'>' => Lexed::Token(TokenKind::ARROW, 2),
        b'-' => Lexed::Skip(2 + classes::run(s, 2, Class::NotLf)),
        _ => Lexed::Token(TokenKind::SYMBOL, 1 + classes::run(s, 1, Class::SymbolPart)),
    }
}

// with `2`,
#[tactic(auto, using(crate::proofs::Arms::lex_two, std::proofs::lemmas::List::get_or_past))]
fn lex_two(s: &[u8]) -> Lexed
    requires { Begins "2" s.now }
    ensures { result ≡ lex_at s.now }
{
    match s {
        [_, b'^', b'1'..=b'9', ..] => Lexed::Token(
            TokenKind::TWO_EXP,
            2 + classes::run(s, 2, Class::Digit),
        ),
        _ => Lexed::Token(TokenKind::TWO, 1),
    }
}

// with `0`,
#[tactic(auto, using(crate::proofs::Arms::lex_zero))]
fn lex_zero(s: &[u8]) -> Lexed
    requires { Begins "0" s.now }
    ensures { result ≡ lex_at s.now }
{
    match text::byte_at(s, 1) {
        b'b' => lex_digits(s, TokenKind::BIN_LITERAL, Class::Bit),
        b'x' => lex_digits(s, TokenKind::HEX_LITERAL, Class::LowHex),
        _ => Lexed::NoMatch,
    }
}

// with `#`,
#[tactic(auto, using(crate::proofs::Arms::lex_hash))]
fn lex_hash(s: &[u8]) -> Lexed
    requires { Begins "#" s.now }
    ensures { result ≡ lex_at s.now }
{
    match text::byte_at(s, 1) {
        b'{' => Lexed::Token(TokenKind::HASH_BRACE, 2),
        _ if CMR_DIGITS <= classes::run(s, 1, Class::AnyHex) => {
            Lexed::Token(TokenKind::CMR_LITERAL, 1 + CMR_DIGITS)
        }
        _ => Lexed::NoMatch,
    }
}

// or with a byte that begins a word or nothing.
#[tactic(auto, using(crate::proofs::Arms::lex_word, crate::proofs::Arms::lex_none, crate::proofs::Arms::symbol_inside))]
fn lex_word(s: &[u8]) -> Lexed
    requires { (0 < length s.now) × NotIn keys (get_or s.now 0 0) }
    ensures { result ≡ lex_at s.now }
{
    if classes::has(Class::SymbolFirst, s[0]) {
        let n = 1 + classes::run(s, 1, Class::SymbolPart);
        Lexed::Token(word_kind(&s[..n]), n)
    } else {
        Lexed::NoMatch
    }
}

// What stands at the front of s: the longest match of a token or a skip.
#[tactic(auto, using(crate::proofs::Arms::lex_alone))]
pub fn lex_one(s: &[u8]) -> Lexed
    requires { 0 < length s.now }
    ensures { result ≡ lex_at s.now }
{
    match s[0] {
        b'(' => Lexed::Token(TokenKind::L_PAREN, 1),
        b')' => Lexed::Token(TokenKind::R_PAREN, 1),
        b'+' => Lexed::Token(TokenKind::PLUS, 1),
        b'*' => Lexed::Token(TokenKind::STAR, 1),
        b'}' => Lexed::Token(TokenKind::R_BRACE, 1),
        b'?' => Lexed::Token(TokenKind::QUESTION, 1),
        b'1' => Lexed::Token(TokenKind::ONE, 1),
        b' ' | b'\t' | b'\r' | b'\n' => Lexed::Skip(1),
        b':' => lex_colon(s),
        b'-' => lex_dash(s),
        b'2' => lex_two(s),
        b'0' => lex_zero(s),
        b'#' => lex_hash(s),
        _ => lex_word(s),
    }
}
