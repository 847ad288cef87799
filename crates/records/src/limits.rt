// The limits of a reading.
ghost use Rattle.std.specs.Prelude.{◌≡◌};
ghost use Rattle.records.specs.Limits.{limits};

use crate::{
    ErrorRecord, ExprRecord, LineRecord, NameRecord, NodeRecord, TokenRecord, TypeRecord,
    WorkRecord,
};

// The limits, and the words of a record of each table, for a caller who lends the tables.
#[repr(C)]
#[derive(Clone, Copy)]
pub struct Limits {
    pub source_bytes: u32,
    pub records: u32,
    pub depth: u32,
    pub token_words: u32,
    pub line_words: u32,
    pub expression_words: u32,
    pub type_words: u32,
    pub name_words: u32,
    pub node_words: u32,
    pub error_words: u32,
    pub work_words: u32,
}

impl Limits {
    // Bytes of a source.
    pub const SOURCE: u32 = 32768;
    // Tokens, and records of every table.
    pub const RECORDS: u32 = 1024;
    // Depth of an expression and of a type.
    pub const DEPTH: u32 = 128;

    // All of them: what ties each constant to its definition.
    pub fn all() -> Limits
        ensures { result ≡ limits }
    {
        Limits {
            source_bytes: Limits::SOURCE,
            records: Limits::RECORDS,
            depth: Limits::DEPTH,
            token_words: TokenRecord::WORDS,
            line_words: LineRecord::WORDS,
            expression_words: ExprRecord::WORDS,
            type_words: TypeRecord::WORDS,
            name_words: NameRecord::WORDS,
            node_words: NodeRecord::WORDS,
            error_words: ErrorRecord::WORDS,
            work_words: WorkRecord::WORDS,
        }
    }
}
