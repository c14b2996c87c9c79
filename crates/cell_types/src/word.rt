//! Combinational cells on words.

ghost use Rattle.std.specs.Prelude.{◌≡◌, Some};
ghost use Rattle.cell_types.specs.Kind.{kind_of};
ghost use Rattle.cell_types.specs.Word.{word_of};

use crate::kind::CellKind;
use crate::names::find_named;

/// A word made of one word, bit by bit or as a number.
#[derive(Clone, Copy, Debug, PartialEq, Eq)]
pub enum UnaryKind {
    /// `$not`: the inverse of each bit.
    Not,
    /// `$pos`: the operand itself.
    Pos,
    /// `$neg`: the two's complement.
    Neg,
}

/// One bit made of all bits of a word.
#[derive(Clone, Copy, Debug, PartialEq, Eq)]
pub enum FoldKind {
    /// `$reduce_and`: all are 1.
    And,
    /// `$reduce_or`: one is 1.
    Or,
    /// `$reduce_xor`: an odd number is 1.
    Xor,
    /// `$reduce_xnor`: an even number is 1.
    Xnor,
    /// `$reduce_bool`: one is 1.
    Bool,
    /// `$logic_not`: none is 1.
    LogicNot,
}

/// A word made of two words, bit by bit.
#[derive(Clone, Copy, Debug, PartialEq, Eq)]
pub enum BitwiseKind {
    /// `$and`: both are 1.
    And,
    /// `$or`: one is 1.
    Or,
    /// `$xor`: they differ.
    Xor,
    /// `$xnor`: they are equal.
    Xnor,
}

/// One bit made of two words, each of which counts as true where one of its bits is 1.
#[derive(Clone, Copy, Debug, PartialEq, Eq)]
pub enum LogicKind {
    /// `$logic_and`: both are true.
    And,
    /// `$logic_or`: one is true.
    Or,
}

/// Whether two words are equal.
#[derive(Clone, Copy, Debug, PartialEq, Eq)]
pub enum EqualKind {
    /// `$eq`: they are.
    Eq,
    /// `$ne`: they differ.
    Ne,
}

/// The order of two numbers.
#[derive(Clone, Copy, Debug, PartialEq, Eq)]
pub enum OrderKind {
    /// `$lt`: A is less than B.
    Lt,
    /// `$le`: A is at most B.
    Le,
    /// `$ge`: A is at least B.
    Ge,
    /// `$gt`: A is greater than B.
    Gt,
}

/// A number made of two, modulo a power of two.
#[derive(Clone, Copy, Debug, PartialEq, Eq)]
pub enum ArithKind {
    /// `$add`: the sum.
    Add,
    /// `$sub`: the difference.
    Sub,
    /// `$mul`: the product.
    Mul,
}

/// A quotient or a remainder.
#[derive(Clone, Copy, Debug, PartialEq, Eq)]
pub enum DivisionKind {
    /// `$div`: the quotient, rounded toward zero.
    Div,
    /// `$mod`: its remainder, with the sign of A.
    Mod,
    /// `$divfloor`: the quotient, rounded down.
    DivFloor,
    /// `$modfloor`: its remainder, with the sign of B.
    ModFloor,
}

/// A word moved by a number of places.
#[derive(Clone, Copy, Debug, PartialEq, Eq)]
pub enum ShiftKind {
    /// `$shl`: upward.
    Shl,
    /// `$sshl`: upward, as `$shl`.
    Sshl,
    /// `$shr`: downward, filled with 0.
    Shr,
    /// `$sshr`: downward, filled with the sign.
    Sshr,
    /// `$shift`: downward, or upward by a negative number.
    Shift,
    /// `$shiftx`: as `$shift`, with x outside the word.
    Shiftx,
}

/// A combinational cell on words: in the Yosys manual, "Word-level cells", the sections "Unary
/// operators", "Binary operators" and "Multiplexers".
#[derive(Clone, Copy, Debug, PartialEq, Eq)]
pub enum WordKind {
    Unary(UnaryKind),
    Fold(FoldKind),
    Bitwise(BitwiseKind),
    Logic(LogicKind),
    Equal(EqualKind),
    Order(OrderKind),
    Arith(ArithKind),
    Division(DivisionKind),
    Shift(ShiftKind),
    /// `$mux`: A for S 0, B for S 1.
    Mux,
    /// `$pmux`: A, or the part of B that the one set bit of S chooses.
    Pmux,
    /// `$slice`: a part of A.
    Slice,
    /// `$concat`: A below B.
    Concat,
    /// `$buf`: A.
    Buf,
    /// `$bwmux`: bit by bit, A for S 0, B for S 1.
    Bwmux,
    /// `$bmux`: the part of A whose number S is.
    Bmux,
    /// `$demux`: A at the part whose number S is, and 0 elsewhere.
    Demux,
}

#[rattlefmt::skip]
const WORDS_OF_3: [(&[u8], WordKind); 7] = [
    (b"$or", WordKind::Bitwise(BitwiseKind::Or)),
    (b"$eq", WordKind::Equal(EqualKind::Eq)),
    (b"$ne", WordKind::Equal(EqualKind::Ne)),
    (b"$lt", WordKind::Order(OrderKind::Lt)),
    (b"$le", WordKind::Order(OrderKind::Le)),
    (b"$ge", WordKind::Order(OrderKind::Ge)),
    (b"$gt", WordKind::Order(OrderKind::Gt)),
];

#[rattlefmt::skip]
const WORDS_OF_4: [(&[u8], WordKind); 14] = [
    (b"$not", WordKind::Unary(UnaryKind::Not)),
    (b"$pos", WordKind::Unary(UnaryKind::Pos)),
    (b"$neg", WordKind::Unary(UnaryKind::Neg)),
    (b"$and", WordKind::Bitwise(BitwiseKind::And)),
    (b"$xor", WordKind::Bitwise(BitwiseKind::Xor)),
    (b"$add", WordKind::Arith(ArithKind::Add)),
    (b"$sub", WordKind::Arith(ArithKind::Sub)),
    (b"$mul", WordKind::Arith(ArithKind::Mul)),
    (b"$div", WordKind::Division(DivisionKind::Div)),
    (b"$mod", WordKind::Division(DivisionKind::Mod)),
    (b"$shl", WordKind::Shift(ShiftKind::Shl)),
    (b"$shr", WordKind::Shift(ShiftKind::Shr)),
    (b"$mux", WordKind::Mux),
    (b"$buf", WordKind::Buf),
];

#[rattlefmt::skip]
const WORDS_OF_5: [(&[u8], WordKind); 5] = [
    (b"$xnor", WordKind::Bitwise(BitwiseKind::Xnor)),
    (b"$sshl", WordKind::Shift(ShiftKind::Sshl)),
    (b"$sshr", WordKind::Shift(ShiftKind::Sshr)),
    (b"$pmux", WordKind::Pmux),
    (b"$bmux", WordKind::Bmux),
];

#[rattlefmt::skip]
const WORDS_OF_6: [(&[u8], WordKind); 4] = [
    (b"$shift", WordKind::Shift(ShiftKind::Shift)),
    (b"$slice", WordKind::Slice),
    (b"$bwmux", WordKind::Bwmux),
    (b"$demux", WordKind::Demux),
];

#[rattlefmt::skip]
const WORDS_OF_7: [(&[u8], WordKind); 2] = [
    (b"$shiftx", WordKind::Shift(ShiftKind::Shiftx)),
    (b"$concat", WordKind::Concat),
];

#[rattlefmt::skip]
const WORDS_OF_9: [(&[u8], WordKind); 3] = [
    (b"$logic_or", WordKind::Logic(LogicKind::Or)),
    (b"$divfloor", WordKind::Division(DivisionKind::DivFloor)),
    (b"$modfloor", WordKind::Division(DivisionKind::ModFloor)),
];

#[rattlefmt::skip]
const WORDS_OF_10: [(&[u8], WordKind); 3] = [
    (b"$reduce_or", WordKind::Fold(FoldKind::Or)),
    (b"$logic_not", WordKind::Fold(FoldKind::LogicNot)),
    (b"$logic_and", WordKind::Logic(LogicKind::And)),
];

#[rattlefmt::skip]
const WORDS_OF_11: [(&[u8], WordKind); 2] = [
    (b"$reduce_and", WordKind::Fold(FoldKind::And)),
    (b"$reduce_xor", WordKind::Fold(FoldKind::Xor)),
];

#[rattlefmt::skip]
const WORDS_OF_12: [(&[u8], WordKind); 2] = [
    (b"$reduce_xnor", WordKind::Fold(FoldKind::Xnor)),
    (b"$reduce_bool", WordKind::Fold(FoldKind::Bool)),
];

/// The word cell of this name.
pub(crate) fn word_named(name: &[u8]) -> Option<WordKind>
    ensures value { result ≡ word_of name.now }
{
    match name.len() {
        3 => find_named(&WORDS_OF_3, name),
        4 => find_named(&WORDS_OF_4, name),
        5 => find_named(&WORDS_OF_5, name),
        6 => find_named(&WORDS_OF_6, name),
        7 => find_named(&WORDS_OF_7, name),
        9 => find_named(&WORDS_OF_9, name),
        10 => find_named(&WORDS_OF_10, name),
        11 => find_named(&WORDS_OF_11, name),
        12 => find_named(&WORDS_OF_12, name),
        _ => None,
    }
}

impl UnaryKind {
    /// The name of the cell.
    pub fn name(self) -> &'static [u8]
        ensures value { kind_of result.now ≡ Some (CellKind.Word (WordKind.Unary self)) }
    {
        match self {
            UnaryKind::Not => b"$not",
            UnaryKind::Pos => b"$pos",
            UnaryKind::Neg => b"$neg",
        }
    }
}

impl FoldKind {
    /// The name of the cell.
    pub fn name(self) -> &'static [u8]
        ensures value { kind_of result.now ≡ Some (CellKind.Word (WordKind.Fold self)) }
    {
        match self {
            FoldKind::And => b"$reduce_and",
            FoldKind::Or => b"$reduce_or",
            FoldKind::Xor => b"$reduce_xor",
            FoldKind::Xnor => b"$reduce_xnor",
            FoldKind::Bool => b"$reduce_bool",
            FoldKind::LogicNot => b"$logic_not",
        }
    }
}

impl BitwiseKind {
    /// The name of the cell.
    pub fn name(self) -> &'static [u8]
        ensures value { kind_of result.now ≡ Some (CellKind.Word (WordKind.Bitwise self)) }
    {
        match self {
            BitwiseKind::And => b"$and",
            BitwiseKind::Or => b"$or",
            BitwiseKind::Xor => b"$xor",
            BitwiseKind::Xnor => b"$xnor",
        }
    }
}

impl LogicKind {
    /// The name of the cell.
    pub fn name(self) -> &'static [u8]
        ensures value { kind_of result.now ≡ Some (CellKind.Word (WordKind.Logic self)) }
    {
        match self {
            LogicKind::And => b"$logic_and",
            LogicKind::Or => b"$logic_or",
        }
    }
}

impl EqualKind {
    /// The name of the cell.
    pub fn name(self) -> &'static [u8]
        ensures value { kind_of result.now ≡ Some (CellKind.Word (WordKind.Equal self)) }
    {
        match self {
            EqualKind::Eq => b"$eq",
            EqualKind::Ne => b"$ne",
        }
    }
}

impl OrderKind {
    /// The name of the cell.
    pub fn name(self) -> &'static [u8]
        ensures value { kind_of result.now ≡ Some (CellKind.Word (WordKind.Order self)) }
    {
        match self {
            OrderKind::Lt => b"$lt",
            OrderKind::Le => b"$le",
            OrderKind::Ge => b"$ge",
            OrderKind::Gt => b"$gt",
        }
    }
}

impl ArithKind {
    /// The name of the cell.
    pub fn name(self) -> &'static [u8]
        ensures value { kind_of result.now ≡ Some (CellKind.Word (WordKind.Arith self)) }
    {
        match self {
            ArithKind::Add => b"$add",
            ArithKind::Sub => b"$sub",
            ArithKind::Mul => b"$mul",
        }
    }
}

impl DivisionKind {
    /// The name of the cell.
    pub fn name(self) -> &'static [u8]
        ensures value { kind_of result.now ≡ Some (CellKind.Word (WordKind.Division self)) }
    {
        match self {
            DivisionKind::Div => b"$div",
            DivisionKind::Mod => b"$mod",
            DivisionKind::DivFloor => b"$divfloor",
            DivisionKind::ModFloor => b"$modfloor",
        }
    }
}

impl ShiftKind {
    /// The name of the cell.
    pub fn name(self) -> &'static [u8]
        ensures value { kind_of result.now ≡ Some (CellKind.Word (WordKind.Shift self)) }
    {
        match self {
            ShiftKind::Shl => b"$shl",
            ShiftKind::Sshl => b"$sshl",
            ShiftKind::Shr => b"$shr",
            ShiftKind::Sshr => b"$sshr",
            ShiftKind::Shift => b"$shift",
            ShiftKind::Shiftx => b"$shiftx",
        }
    }
}

impl WordKind {
    /// The name of the cell.
    pub fn name(self) -> &'static [u8]
        ensures value { kind_of result.now ≡ Some (CellKind.Word self) }
    {
        match self {
            WordKind::Unary(kind) => kind.name(),
            WordKind::Fold(kind) => kind.name(),
            WordKind::Bitwise(kind) => kind.name(),
            WordKind::Logic(kind) => kind.name(),
            WordKind::Equal(kind) => kind.name(),
            WordKind::Order(kind) => kind.name(),
            WordKind::Arith(kind) => kind.name(),
            WordKind::Division(kind) => kind.name(),
            WordKind::Shift(kind) => kind.name(),
            WordKind::Mux => b"$mux",
            WordKind::Pmux => b"$pmux",
            WordKind::Slice => b"$slice",
            WordKind::Concat => b"$concat",
            WordKind::Buf => b"$buf",
            WordKind::Bwmux => b"$bwmux",
            WordKind::Bmux => b"$bmux",
            WordKind::Demux => b"$demux",
        }
    }
}
