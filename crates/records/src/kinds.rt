// The kinds of tokens, types, nodes and errors: a type for each, and a kind's number as a constant of its type.
ghost use Rattle.std.specs.Prelude.{◌≡◌, map, ◌++◌};
ghost use Rattle.records.specs.TokenKind as token;
ghost use Rattle.records.specs.TypeKind as type;
ghost use Rattle.records.specs.NodeKind as node;
ghost use Rattle.records.specs.ErrorKind as error;

// The Rust's `Token`.
#[derive(Clone, Copy, PartialEq, Eq)]
pub struct TokenKind(pub u32);

impl TokenKind {
    pub const ASSIGN: TokenKind = TokenKind(1);

    pub const ARROW: TokenKind = TokenKind(2);

    pub const HASH_BRACE: TokenKind = TokenKind(3);

    pub const L_PAREN: TokenKind = TokenKind(4);

    pub const R_PAREN: TokenKind = TokenKind(5);

    pub const PLUS: TokenKind = TokenKind(6);

    pub const STAR: TokenKind = TokenKind(7);

    pub const COLON: TokenKind = TokenKind(8);

    pub const R_BRACE: TokenKind = TokenKind(9);

    pub const QUESTION: TokenKind = TokenKind(10);

    pub const CONST: TokenKind = TokenKind(11);

    pub const ASSERT_L: TokenKind = TokenKind(12);

    pub const ASSERT_R: TokenKind = TokenKind(13);

    pub const FAIL: TokenKind = TokenKind(14);

    pub const DISCONNECT: TokenKind = TokenKind(15);

    pub const CASE: TokenKind = TokenKind(16);

    pub const COMP: TokenKind = TokenKind(17);

    pub const PAIR: TokenKind = TokenKind(18);

    pub const INJ_L: TokenKind = TokenKind(19);

    pub const INJ_R: TokenKind = TokenKind(20);

    pub const TAKE: TokenKind = TokenKind(21);

    pub const DROP: TokenKind = TokenKind(22);

    pub const UNIT: TokenKind = TokenKind(23);

    pub const IDEN: TokenKind = TokenKind(24);

    pub const WITNESS: TokenKind = TokenKind(25);

    pub const UNDERSCORE: TokenKind = TokenKind(26);

    pub const ONE: TokenKind = TokenKind(27);

    pub const TWO: TokenKind = TokenKind(28);

    pub const TWO_EXP: TokenKind = TokenKind(29);

    pub const BIN_LITERAL: TokenKind = TokenKind(30);

    pub const HEX_LITERAL: TokenKind = TokenKind(31);

    pub const CMR_LITERAL: TokenKind = TokenKind(32);

    pub const JET: TokenKind = TokenKind(33);

    pub const SYMBOL: TokenKind = TokenKind(34);
}

// The Rust's `ast::Type`.
#[derive(Clone, Copy, PartialEq, Eq)]
pub struct TypeKind(pub u32);

impl TypeKind {
    pub const NAME: TypeKind = TypeKind(1);

    pub const ONE: TypeKind = TypeKind(2);

    pub const TWO: TypeKind = TypeKind(3);

    pub const PRODUCT: TypeKind = TypeKind(4);

    pub const SUM: TypeKind = TypeKind(5);

    pub const TWO_TWO_N: TypeKind = TypeKind(6);
}

// The Rust's `ResolvedInner`. Expressions use these kinds too, but never the first two.
#[derive(Clone, Copy, PartialEq, Eq)]
pub struct NodeKind(pub u32);

impl NodeKind {
    pub const MISSING: NodeKind = NodeKind(1);

    pub const NO_EXPR: NodeKind = NodeKind(2);

    pub const REFERENCE: NodeKind = NodeKind(3);

    pub const ASSERT_L: NodeKind = NodeKind(4);

    pub const ASSERT_R: NodeKind = NodeKind(5);

    pub const IDEN: NodeKind = NodeKind(6);

    pub const UNIT: NodeKind = NodeKind(7);

    pub const INJ_L: NodeKind = NodeKind(8);

    pub const INJ_R: NodeKind = NodeKind(9);

    pub const TAKE: NodeKind = NodeKind(10);

    pub const DROP: NodeKind = NodeKind(11);

    pub const COMP: NodeKind = NodeKind(12);

    pub const CASE: NodeKind = NodeKind(13);

    pub const PAIR: NodeKind = NodeKind(14);

    pub const DISCONNECT: NodeKind = NodeKind(15);

    pub const WITNESS: NodeKind = NodeKind(16);

    pub const HOLE: NodeKind = NodeKind(17);

    pub const FAIL: NodeKind = NodeKind(18);

    pub const JET: NodeKind = NodeKind(19);

    pub const WORD: NodeKind = NodeKind(20);
}

// The Rust's `Error`, those kinds that a reading lists.
#[derive(Clone, Copy, PartialEq, Eq)]
pub struct ErrorKind(pub u32);

impl ErrorKind {
    pub const ILLEGAL: ErrorKind = ErrorKind(1);

    pub const REPEATED: ErrorKind = ErrorKind(2);

    pub const MISSING: ErrorKind = ErrorKind(3);

    pub const INCOMPLETE: ErrorKind = ErrorKind(4);
}

// How many kinds there are in all.
pub const KINDS: usize = 64;

// Every kind's number, in the order of document 01: what ties each constant to its definition.
pub fn all_kinds() -> [u32; KINDS]
    ensures { result ≡ map token.number token.kinds ++ map type.number type.kinds ++ map node.number node.kinds ++ map error.number error.kinds }
{
    [
        TokenKind::ASSIGN.0,
        TokenKind::ARROW.0,
        TokenKind::HASH_BRACE.0,
        TokenKind::L_PAREN.0,
        TokenKind::R_PAREN.0,
        TokenKind::PLUS.0,
        TokenKind::STAR.0,
        TokenKind::COLON.0,
        TokenKind::R_BRACE.0,
        TokenKind::QUESTION.0,
        TokenKind::CONST.0,
        TokenKind::ASSERT_L.0,
        TokenKind::ASSERT_R.0,
        TokenKind::FAIL.0,
        TokenKind::DISCONNECT.0,
        TokenKind::CASE.0,
        TokenKind::COMP.0,
        TokenKind::PAIR.0,
        TokenKind::INJ_L.0,
        TokenKind::INJ_R.0,
        TokenKind::TAKE.0,
        TokenKind::DROP.0,
        TokenKind::UNIT.0,
        TokenKind::IDEN.0,
        TokenKind::WITNESS.0,
        TokenKind::UNDERSCORE.0,
        TokenKind::ONE.0,
        TokenKind::TWO.0,
        TokenKind::TWO_EXP.0,
        TokenKind::BIN_LITERAL.0,
        TokenKind::HEX_LITERAL.0,
        TokenKind::CMR_LITERAL.0,
        TokenKind::JET.0,
        TokenKind::SYMBOL.0,
        TypeKind::NAME.0,
        TypeKind::ONE.0,
        TypeKind::TWO.0,
        TypeKind::PRODUCT.0,
        TypeKind::SUM.0,
        TypeKind::TWO_TWO_N.0,
        NodeKind::MISSING.0,
        NodeKind::NO_EXPR.0,
        NodeKind::REFERENCE.0,
        NodeKind::ASSERT_L.0,
        NodeKind::ASSERT_R.0,
        NodeKind::IDEN.0,
        NodeKind::UNIT.0,
        NodeKind::INJ_L.0,
        NodeKind::INJ_R.0,
        NodeKind::TAKE.0,
        NodeKind::DROP.0,
        NodeKind::COMP.0,
        NodeKind::CASE.0,
        NodeKind::PAIR.0,
        NodeKind::DISCONNECT.0,
        NodeKind::WITNESS.0,
        NodeKind::HOLE.0,
        NodeKind::FAIL.0,
        NodeKind::JET.0,
        NodeKind::WORD.0,
        ErrorKind::ILLEGAL.0,
        ErrorKind::REPEATED.0,
        ErrorKind::MISSING.0,
        ErrorKind::INCOMPLETE.0,
    ]
}
