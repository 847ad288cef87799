// What the numbers mean: the records of the tables, their words, and which word of a record holds what. The kinds, the
// limits and the types of numbers stand in modules of their own. `WORDS` is how many words a record has, `TABLE` how many a
// table of them needs.
#![tactic(auto)]

ghost use Rattle.std.specs.Prelude.{◌≡◌, ◌<◌, ◌^◌, List, ℕ};
ghost use Rattle.std.proofs.Common.{rules};
ghost use Rattle.records.specs.Records.{no_span, token_words, line_words, expr_words, type_words, name_words, node_words, error_words, word_places};

use crate::kinds::{ErrorKind, NodeKind, TokenKind, TypeKind};
use crate::limits::Limits;
use crate::numbers::{ByteOffset, ExprNo, NameNo, NodeNo, TypeNo};

pub mod kinds;
pub mod limits;
pub mod numbers;
pub mod refusals;

// A part of the source; 0, 0 for none.
#[derive(Clone, Copy)]
pub struct Span {
    pub start: ByteOffset,
    pub len: u32,
}

// The span of what has none.
pub fn no_span() -> Span
    ensures { result ≡ no_span }
{
    Span {
        start: ByteOffset(0),
        len: 0,
    }
}

// What stands in a table as N words.
pub trait Record<const N: usize> {
    ghost words_of: { Self → List ℕ };

    // The record's words.
    fn words(self) -> [u32; N]
        ensures { result ≡ words_of self };

    // No record has more words than a number can say.
    ghost narrow: { N < 2 ^ 32 };
}

#[derive(Clone, Copy)]
pub struct TokenRecord {
    pub kind: TokenKind,
    pub span: Span,
}

impl TokenRecord {
    pub const WORDS: u32 = 3;

    pub const TABLE: usize = Limits::RECORDS as usize * Self::WORDS as usize;

    pub const KIND: u32 = 0;

    pub const START: u32 = 1;

    pub const LEN: u32 = 2;
}

impl Record<3> for TokenRecord {
    ghost words_of = { token_words };

    ghost narrow = { Prim.search rules };

    fn words(self) -> [u32; 3] {
        [self.kind.0, self.span.start.0, self.span.len]
    }
}

#[derive(Clone, Copy)]
pub struct LineRecord {
    pub name: Span,
    pub expr: ExprNo,
    pub source: TypeNo,
    pub target: TypeNo,
}

impl LineRecord {
    pub const WORDS: u32 = 5;

    pub const TABLE: usize = Limits::RECORDS as usize * Self::WORDS as usize;

    pub const NAME_START: u32 = 0;

    pub const NAME_LEN: u32 = 1;

    pub const EXPR: u32 = 2;

    pub const SOURCE: u32 = 3;

    pub const TARGET: u32 = 4;
}

impl Record<5> for LineRecord {
    ghost words_of = { line_words };

    ghost narrow = { Prim.search rules };

    fn words(self) -> [u32; 5] {
        [
            self.name.start.0,
            self.name.len,
            self.expr.0,
            self.source.0,
            self.target.0,
        ]
    }
}

#[derive(Clone, Copy)]
pub struct ExprRecord {
    pub kind: NodeKind,
    pub start: ByteOffset,
    pub left: ExprNo,
    pub right: ExprNo,
    pub span: Span,
}

impl ExprRecord {
    pub const WORDS: u32 = 6;

    pub const TABLE: usize = Limits::RECORDS as usize * Self::WORDS as usize;

    pub const KIND: u32 = 0;

    pub const START: u32 = 1;

    pub const LEFT: u32 = 2;

    pub const RIGHT: u32 = 3;

    pub const SPAN_START: u32 = 4;

    pub const SPAN_LEN: u32 = 5;
}

impl Record<6> for ExprRecord {
    ghost words_of = { expr_words };

    ghost narrow = { Prim.search rules };

    fn words(self) -> [u32; 6] {
        [
            self.kind.0,
            self.start.0,
            self.left.0,
            self.right.0,
            self.span.start.0,
            self.span.len,
        ]
    }
}

// A type. Left and right are the numbers of its parts, or the start and length of a name.
#[derive(Clone, Copy)]
pub struct TypeRecord {
    pub kind: TypeKind,
    pub left: u32,
    pub right: u32,
    pub n: u32,
}

impl TypeRecord {
    pub const WORDS: u32 = 4;

    pub const TABLE: usize = Limits::RECORDS as usize * Self::WORDS as usize;

    pub const KIND: u32 = 0;

    pub const LEFT: u32 = 1;

    pub const RIGHT: u32 = 2;

    pub const N: u32 = 3;
}

impl Record<4> for TypeRecord {
    ghost words_of = { type_words };

    ghost narrow = { Prim.search rules };

    fn words(self) -> [u32; 4] {
        [self.kind.0, self.left, self.right, self.n]
    }
}

#[derive(Clone, Copy)]
pub struct NameRecord {
    pub span: Span,
    pub expr: ExprNo,
    pub node: NodeNo,
}

impl NameRecord {
    pub const WORDS: u32 = 4;

    pub const TABLE: usize = Limits::RECORDS as usize * Self::WORDS as usize;

    pub const START: u32 = 0;

    pub const LEN: u32 = 1;

    pub const EXPR: u32 = 2;

    pub const NODE: u32 = 3;
}

impl Record<4> for NameRecord {
    ghost words_of = { name_words };

    ghost narrow = { Prim.search rules };

    fn words(self) -> [u32; 4] {
        [self.span.start.0, self.span.len, self.expr.0, self.node.0]
    }
}

#[derive(Clone, Copy)]
pub struct NodeRecord {
    pub kind: NodeKind,
    pub start: ByteOffset,
    pub name: NameNo,
    pub left: NodeNo,
    pub right: NodeNo,
    pub span: Span,
    pub in_degree: u32,
}

impl NodeRecord {
    pub const WORDS: u32 = 8;

    pub const TABLE: usize = Limits::RECORDS as usize * Self::WORDS as usize;

    pub const KIND: u32 = 0;

    pub const START: u32 = 1;

    pub const NAME: u32 = 2;

    pub const LEFT: u32 = 3;

    pub const RIGHT: u32 = 4;

    pub const SPAN_START: u32 = 5;

    pub const SPAN_LEN: u32 = 6;

    pub const IN_DEGREE: u32 = 7;
}

impl Record<8> for NodeRecord {
    ghost words_of = { node_words };

    ghost narrow = { Prim.search rules };

    fn words(self) -> [u32; 8] {
        [
            self.kind.0,
            self.start.0,
            self.name.0,
            self.left.0,
            self.right.0,
            self.span.start.0,
            self.span.len,
            self.in_degree,
        ]
    }
}

#[derive(Clone, Copy)]
pub struct ErrorRecord {
    pub kind: ErrorKind,
    pub start: ByteOffset,
    pub name: Span,
}

impl ErrorRecord {
    pub const WORDS: u32 = 4;

    pub const TABLE: usize = Limits::RECORDS as usize * Self::WORDS as usize;

    pub const KIND: u32 = 0;

    pub const START: u32 = 1;

    pub const NAME_START: u32 = 2;

    pub const NAME_LEN: u32 = 3;
}

impl Record<4> for ErrorRecord {
    ghost words_of = { error_words };

    ghost narrow = { Prim.search rules };

    fn words(self) -> [u32; 4] {
        [self.kind.0, self.start.0, self.name.start.0, self.name.len]
    }
}

// The work table is the walk's: what its four words hold is said there.
#[derive(Clone, Copy)]
pub struct WorkRecord {}

impl WorkRecord {
    pub const WORDS: u32 = 4;

    pub const TABLE: usize = Limits::RECORDS as usize * Self::WORDS as usize;
}

// How many words the records of the seven tables have together.
pub const WORD_PLACES: usize = 34;

// The places of the words in each record, table after table: what ties each constant to its definition.
pub fn word_places() -> [u32; WORD_PLACES]
    ensures { result ≡ word_places }
{
    [
        TokenRecord::KIND,
        TokenRecord::START,
        TokenRecord::LEN,
        LineRecord::NAME_START,
        LineRecord::NAME_LEN,
        LineRecord::EXPR,
        LineRecord::SOURCE,
        LineRecord::TARGET,
        ExprRecord::KIND,
        ExprRecord::START,
        ExprRecord::LEFT,
        ExprRecord::RIGHT,
        ExprRecord::SPAN_START,
        ExprRecord::SPAN_LEN,
        TypeRecord::KIND,
        TypeRecord::LEFT,
        TypeRecord::RIGHT,
        TypeRecord::N,
        NameRecord::START,
        NameRecord::LEN,
        NameRecord::EXPR,
        NameRecord::NODE,
        NodeRecord::KIND,
        NodeRecord::START,
        NodeRecord::NAME,
        NodeRecord::LEFT,
        NodeRecord::RIGHT,
        NodeRecord::SPAN_START,
        NodeRecord::SPAN_LEN,
        NodeRecord::IN_DEGREE,
        ErrorRecord::KIND,
        ErrorRecord::START,
        ErrorRecord::NAME_START,
        ErrorRecord::NAME_LEN,
    ]
}
