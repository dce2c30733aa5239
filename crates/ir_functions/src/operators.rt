ghost use Rattle.std.specs.Prelude.{◌≡◌};
ghost use Rattle.ir_functions.specs.Operators.{bitwise_operator, binary_operator, predicate, cast_operator, order_operator, rmw_operator};

use hw_base::{BinOp, CastOp, Pred, RmwOp};

fn bitwise_operator(word: &[u8]) -> BinOp
    ensures { result ≡ bitwise_operator word.now }
{
    if word == b"shl".as_slice() {
        BinOp::Shl
    } else if word == b"lshr".as_slice() {
        BinOp::LShr
    } else if word == b"ashr".as_slice() {
        BinOp::AShr
    } else if word == b"and".as_slice() {
        BinOp::And
    } else if word == b"or".as_slice() {
        BinOp::Or
    } else {
        BinOp::Xor
    }
}

/// The operator of two integers that a word spells.
pub(crate) fn binary_operator(word: &[u8]) -> BinOp
    ensures { result ≡ binary_operator word.now }
{
    if word == b"add".as_slice() {
        BinOp::Add
    } else if word == b"sub".as_slice() {
        BinOp::Sub
    } else if word == b"mul".as_slice() {
        BinOp::Mul
    } else if word == b"udiv".as_slice() {
        BinOp::UDiv
    } else if word == b"sdiv".as_slice() {
        BinOp::SDiv
    } else if word == b"urem".as_slice() {
        BinOp::URem
    } else if word == b"srem".as_slice() {
        BinOp::SRem
    } else {
        bitwise_operator(word)
    }
}

/// The predicate of a comparison that a word spells.
pub(crate) fn predicate(word: &[u8]) -> Pred
    ensures { result ≡ predicate word.now }
{
    if word == b"eq".as_slice() {
        Pred::Eq
    } else if word == b"ne".as_slice() {
        Pred::Ne
    } else if word == b"ugt".as_slice() {
        Pred::Ugt
    } else if word == b"uge".as_slice() {
        Pred::Uge
    } else if word == b"ult".as_slice() {
        Pred::Ult
    } else if word == b"ule".as_slice() {
        Pred::Ule
    } else if word == b"sgt".as_slice() {
        Pred::Sgt
    } else if word == b"sge".as_slice() {
        Pred::Sge
    } else if word == b"slt".as_slice() {
        Pred::Slt
    } else {
        Pred::Sle
    }
}

/// The conversion of an integer that a word spells.
pub(crate) fn cast_operator(word: &[u8]) -> CastOp
    ensures { result ≡ cast_operator word.now }
{
    if word == b"trunc".as_slice() {
        CastOp::Trunc
    } else if word == b"zext".as_slice() {
        CastOp::ZExt
    } else {
        CastOp::SExt
    }
}

fn order_operator(word: &[u8]) -> RmwOp
    ensures { result ≡ order_operator word.now }
{
    if word == b"max".as_slice() {
        RmwOp::Max
    } else if word == b"min".as_slice() {
        RmwOp::Min
    } else if word == b"umax".as_slice() {
        RmwOp::UMax
    } else {
        RmwOp::UMin
    }
}

/// The operator of an `atomicrmw` that a word spells.
pub(crate) fn rmw_operator(word: &[u8]) -> RmwOp
    ensures { result ≡ rmw_operator word.now }
{
    if word == b"xchg".as_slice() {
        RmwOp::Xchg
    } else if word == b"add".as_slice() {
        RmwOp::Add
    } else if word == b"sub".as_slice() {
        RmwOp::Sub
    } else if word == b"and".as_slice() {
        RmwOp::And
    } else if word == b"nand".as_slice() {
        RmwOp::Nand
    } else if word == b"or".as_slice() {
        RmwOp::Or
    } else if word == b"xor".as_slice() {
        RmwOp::Xor
    } else {
        order_operator(word)
    }
}
