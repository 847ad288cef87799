// One type for each kind of number, so that none is taken for another. Record numbers begin at 1; 0 is none.

// A place in the source, in bytes.
#[derive(Clone, Copy, PartialEq, Eq)]
pub struct ByteOffset(pub u32);

#[derive(Clone, Copy, PartialEq, Eq)]
pub struct TokenNo(pub u32);

#[derive(Clone, Copy, PartialEq, Eq)]
pub struct LineNo(pub u32);

#[derive(Clone, Copy, PartialEq, Eq)]
pub struct ExprNo(pub u32);

#[derive(Clone, Copy, PartialEq, Eq)]
pub struct TypeNo(pub u32);

#[derive(Clone, Copy, PartialEq, Eq)]
pub struct NameNo(pub u32);

#[derive(Clone, Copy, PartialEq, Eq)]
pub struct NodeNo(pub u32);

#[derive(Clone, Copy, PartialEq, Eq)]
pub struct ErrorNo(pub u32);

#[derive(Clone, Copy, PartialEq, Eq)]
pub struct WorkNo(pub u32);
