// A row of document 01's table of refusals, as a host is handed it.
ghost use Rattle.std.specs.Prelude.{◌≡◌};
ghost use Rattle.records.specs.Refusals.{no_row, row_by};

#[repr(C)]
#[derive(Clone, Copy)]
pub struct Refusal {
    // The refusal's number; 0 is none.
    pub no: u32,
    // The number beside the place.
    pub value: u32,
    pub place: usize,
}

// A number is a constant here from the layer on that answers it, whose contract ties it to the definition.
impl Refusal {
    pub const NONE: u32 = 0;

    pub const SHORT_TABLE: u32 = 1;

    pub const LONG_SOURCE: u32 = 2;

    pub const NOT_UTF8: u32 = 3;

    pub const NO_TOKEN: u32 = 4;

    pub const TOO_MANY_TOKENS: u32 = 5;

    pub const PARSE_FAILED: u32 = 6;

    pub const BAD_WORD_LENGTH: u32 = 7;

    pub const SHORT_FAIL: u32 = 8;

    pub const LONG_FAIL: u32 = 9;

    pub const UNKNOWN_JET: u32 = 10;

    pub const BAD_POWER: u32 = 11;

    pub const BIG_EXPONENT: u32 = 12;

    pub const TOO_DEEP: u32 = 13;
}

// Why an answer is refused: each cause has its row of the table.
pub trait Cause: Copy {
    ghost use Rattle.records.specs.declared.refusals.Refusal.{Refusal};

    ghost row_of: { Self → Refusal };

    // The row.
    fn row(self) -> Refusal
        ensures { result ≡ row_of self };
}

// The row of what is not refused.
pub fn no_row() -> Refusal
    ensures { result ≡ no_row }
{
    Refusal {
        no: Refusal::NONE,
        value: 0,
        place: 0,
    }
}

// The row of an answer: its cause's, or that of none.
pub fn row<T: Copy, E: Cause>(answer: Result<T, E>) -> Refusal
    ensures { result ≡ row_by E.row_of answer }
{
    match answer {
        Ok(_) => no_row(),
        Err(cause) => cause.row(),
    }
}
