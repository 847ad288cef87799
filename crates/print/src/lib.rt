// A lent output, into which text is put piece by piece. What would stand past its end is left out, so that the same methods find out
// how long a text is.
#![tactic(auto)]

ghost use Rattle.std.specs.Prelude.{◌≡◌, [], ◌∷◌, ◌+◌, ◌≤◌, ◌<◌, length};
ghost use Rattle.text.specs.Place.{position_of};
ghost use Rattle.print.specs.Text.{digits, decimal, place_word, listing_limit, Begins, Adds};

// No listing has more bytes.
pub const LISTING: usize = 196608;

// No number of 64 bits has more digits.
const MOST_DIGITS: usize = 20;

const RADIX: usize = 10;

// A lent output, and the place in it where the next text goes.
#[derive(Drop)]
pub struct Output<'a> {
    out: &'a mut [u8],
    at: usize,
}

// The digit of a number below ten.
fn digit(number: usize) -> u8
    requires { number < 10 }
    ensures { result ≡ 48 + number }
{
    b'0' + number as u8
}

impl<'a> Output<'a> {
    // Begins at the front of what is lent.
    pub fn new(out: &'a mut [u8]) -> Output<'a>
        ensures { Begins 0 out.entry result }
    {
        Output { out, at: 0 }
    }

    // Begins at a place of what is lent; the bytes before it stay.
    pub fn new_at(out: &'a mut [u8], at: usize) -> Output<'a>
        ensures { Begins at out.entry result }
    {
        Output { out, at }
    }

    // The place where the next text goes: from the front on, how long the text is that was put.
    pub fn place(&self) -> usize
        ensures { result ≡ self.now.at }
    {
        self.at
    }

    // Puts one byte.
    pub fn put_byte(&mut self, byte: u8)
        requires { self.old.at < listing_limit }
        ensures { Adds (byte ∷ []) self.old self.new }
    {
        self.put(&[byte]);
    }

    // Puts a text.
    pub fn put(&mut self, text: &[u8])
        requires { self.old.at + length text.now ≤ listing_limit }
        ensures { Adds text.now self.old self.new }
    {
        tables::put(self.out, self.at, text);
        self.at += text.len();
    }

    // Puts a number's decimal digits, if it has no more than so many.
    fn put_digits(&mut self, room: usize, number: usize)
        requires { self.old.at + length (digits room number) ≤ listing_limit }
        ensures { Adds (digits room number) self.old self.new }
    {
        if room == 0 {
            return;
        }
        if number < RADIX {
            self.put_byte(digit(number));
        } else {
            self.put_digits(room - 1, number / RADIX);
            self.put_byte(digit(number % RADIX));
        }
    }

    // Puts a number in decimal digits.
    pub fn put_decimal(&mut self, number: usize)
        requires { self.old.at + length (decimal number) ≤ listing_limit }
        ensures { Adds (decimal number) self.old self.new }
    {
        self.put_digits(MOST_DIGITS, number);
    }

    // Puts the line and column of an offset.
    pub fn put_place(&mut self, source: &[u8], offset: usize)
        requires { self.old.at + length (place_word (position_of source.now offset)) ≤ listing_limit }
        ensures { Adds (place_word (position_of source.now offset)) self.old self.new }
    {
        let place = text::offset_to_position(source, offset);
        self.put_decimal(place.line);
        self.put_byte(b':');
        self.put_decimal(place.column);
    }
}
