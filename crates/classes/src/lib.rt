// Classes of bytes: how far the bytes of a class run, and whether a word stands at the front.
#![tactic(auto)]

ghost use Rattle.std.specs.Prelude.{◌≡◌, ◌≤◌, length, drop};
ghost use Rattle.classes.specs.Classes.{begins_symbol, has as has_byte, word, starts, run as run_of};

// A set of bytes.
#[derive(Clone, Copy)]
pub enum Class {
    Byte(u8),
    Bit,
    Digit,
    NonZero,
    LowHex,
    AnyHex,
    JetPart,
    SymbolFirst,
    SymbolPart,
    Blank,
    NotLf,
}

// Whether a byte is of the class. `|` and no pattern joins the tests: a branch for each would make a run take twice as long.
pub fn has(c: Class, b: u8) -> bool
    ensures { result ≡ has_byte c b }
{
    match c {
        Class::Byte(k) => b == k,
        Class::Bit => (b'0'..=b'1').contains(&b),
        Class::Digit => b.is_ascii_digit(),
        Class::NonZero => (b'1'..=b'9').contains(&b),
        Class::LowHex => b.is_ascii_digit() | (b'a'..=b'f').contains(&b),
        Class::AnyHex => b.is_ascii_hexdigit(),
        Class::JetPart => b.is_ascii_lowercase() | b.is_ascii_digit() | (b == b'_'),
        Class::SymbolFirst => begins_symbol(b),
        Class::SymbolPart => begins_symbol(b) | b.is_ascii_digit(),
        Class::Blank => (b == b' ') | (b == b'\t') | (b == b'\r') | (b == b'\n'),
        Class::NotLf => b != b'\n',
    }
}

// A letter or one of `_ - . '`.
fn begins_symbol(b: u8) -> bool
    ensures { result ≡ begins_symbol b }
{
    b.is_ascii_alphabetic() | (b == b'_') | (b == b'-') | (b == b'.') | (b == b'\'')
}

// How many bytes from `at` on are of the class.
pub fn run(s: &[u8], at: usize, c: Class) -> usize
    ensures { (result ≡ run_of c (drop at s.now)) × (result ≤ length s.now) }
{
    let rest = &s[at.min(s.len())..];
    rest.iter().take_while(|b| has(c, **b)).count()
}

// Whether the bytes of w stand at the front of s.
pub fn stands(s: &[u8], w: &[u8]) -> bool
    ensures { result ≡ starts (word w.now) s.now }
{
    s.starts_with(w)
}
