// Reads a stored case: i/NNN is the source, and t/NNN the answer as little-endian words: number, place and value of the
// refusal, the seven counts, the records of the seven tables, and the line and column of each token.
ghost use Rattle.std.specs.Prelude.{◌≡◌, ◌<◌, ◌≤◌, ◌^◌, OnErr, length};
ghost use Rattle.std.specs.Io.{ReadsAtMost};

use records::{
    ErrorRecord, ExprRecord, LineRecord, NameRecord, NodeRecord, TokenRecord, TypeRecord,
};
use std::fs::File;
use std::rt::Files;
use std::{io, str};

// No stored file has so many bytes.
pub(crate) const LONGEST: usize = 65536;

// Which word holds what, and how many there are before the records. The counts follow each other.
const NO: usize = 0;

const PLACE: usize = 1;

const VALUE: usize = 2;

const COUNTS: usize = 3;

const HEAD: usize = 10;

// A stored answer, with the word at which the places of the tokens begin.
#[derive(Clone, Copy)]
pub(crate) struct Stored {
    pub no: u32,
    pub value: u32,
    pub place: usize,
    pub tokens: usize,
    pub places: usize,
}

fn digit(n: u16) -> u8
    requires { n < 10 }
{
    b'0' + n as u8
}

// Reads the file of a case in the folder of this letter, and gives how many bytes of it there are. An error leaves the buffer
// with bytes of no meaning. A path that is no text would be the empty one, which no system opens.
pub(crate) fn load<R: Files>(rt: &R, folder: u8, number: u16, buf: &mut [u8]) -> io::Result<usize>
    requires { number < 1000 }
    ensures ok { ReadsAtMost result buf.new }
    ensures err { OnErr result (length buf.new ≡ length buf.old) }
{
    let path = [
        folder,
        b'/',
        digit(number / 100),
        digit(number / 10 % 10),
        digit(number % 10),
    ];
    let mut file = File::open(rt, str::from_utf8(&path).unwrap_or(""))?;
    inputs::read_full(&mut file, buf)
}

fn byte(bytes: &[u8], i: usize) -> u32
    ensures { result ≤ 255 }
{
    if i < bytes.len() { wide(bytes[i]) } else { 0 }
}

fn wide(b: u8) -> u32
    ensures { result ≤ 255 }
{
    b as u32
}

// The word of this number, counted from 0; 0 past the end.
pub(crate) fn word(bytes: &[u8], k: usize) -> u32 {
    if bytes.len() / 4 <= k {
        return 0;
    }
    let i = 4 * k;
    byte(bytes, i)
        + 256 * byte(bytes, i + 1)
        + 65536 * byte(bytes, i + 2)
        + 16777216 * byte(bytes, i + 3)
}

// The same as a usize.
pub(crate) fn number(bytes: &[u8], k: usize) -> usize
    ensures { result < 2 ^ 32 }
{
    word(bytes, k) as usize
}

// How many words the records of the seven tables have.
fn record_words(bytes: &[u8]) -> usize
    ensures { result < 2 ^ 38 }
{
    TokenRecord::WORDS as usize * number(bytes, COUNTS)
        + LineRecord::WORDS as usize * number(bytes, COUNTS + 1)
        + ExprRecord::WORDS as usize * number(bytes, COUNTS + 2)
        + TypeRecord::WORDS as usize * number(bytes, COUNTS + 3)
        + NameRecord::WORDS as usize * number(bytes, COUNTS + 4)
        + NodeRecord::WORDS as usize * number(bytes, COUNTS + 5)
        + ErrorRecord::WORDS as usize * number(bytes, COUNTS + 6)
}

// The answer that the words hold.
pub(crate) fn answer(bytes: &[u8]) -> Stored
    ensures { (result.tokens < 2 ^ 32) × (result.places < 2 ^ 40) }
{
    Stored {
        no: word(bytes, NO),
        value: word(bytes, VALUE),
        place: number(bytes, PLACE),
        tokens: number(bytes, COUNTS),
        places: HEAD + record_words(bytes),
    }
}

// Whether the answer has as many words as its counts tell, and the source reaches the refused place.
pub(crate) fn whole(source: &[u8], bytes: &[u8]) -> bool {
    let words = record_words(bytes) + 2 * number(bytes, COUNTS);
    if bytes.len() != 4 * (HEAD + words) {
        return false;
    }
    number(bytes, PLACE) <= source.len()
}

// Where the token of this number, counted from 0, starts.
pub(crate) fn token_start(bytes: &[u8], i: usize) -> usize
    requires { i < 2 ^ 32 }
{
    number(
        bytes,
        HEAD + TokenRecord::WORDS as usize * i + TokenRecord::START as usize,
    )
}

// Word i of the token table, of which so many are stored; 0 behind them.
pub(crate) fn token_word(bytes: &[u8], i: usize, words: usize) -> u32
    requires { i < 2 ^ 62 }
{
    if i < words { word(bytes, HEAD + i) } else { 0 }
}
