//! Each operation on the borders of six widths, and on single values whose results are known.
ghost use Rattle.std.specs.Bool.{OnTrue};
ghost use Rattle.std.specs.Prelude.{◌^◌, ◌<◌, ◌≤◌};

use crate::twos_complement::ones;
use crate::{binary, bits, cast, compare, overflow};
use hw_base::{BinOp, BitOp, CastOp, OverOp, Pred, Trap};

/// A width with its least and greatest signed numbers and the value in which each bit is 1, which stands for -1.
#[derive(Clone, Copy)]
struct Borders {
    width: u32,
    least: u128,
    greatest: u128,
    ones: u128,
}

const BORDERS: [Borders; 6] = [
    Borders {
        width: 1,
        least: 1,
        greatest: 0,
        ones: 1,
    },
    Borders {
        width: 8,
        least: 0x80,
        greatest: 0x7f,
        ones: 0xff,
    },
    Borders {
        width: 33,
        least: 0x1_0000_0000,
        greatest: 0xffff_ffff,
        ones: 0x1_ffff_ffff,
    },
    Borders {
        width: 64,
        least: 0x8000_0000_0000_0000,
        greatest: 0x7fff_ffff_ffff_ffff,
        ones: 0xffff_ffff_ffff_ffff,
    },
    Borders {
        width: 127,
        least: 0x4000_0000_0000_0000_0000_0000_0000_0000,
        greatest: 0x3fff_ffff_ffff_ffff_ffff_ffff_ffff_ffff,
        ones: 0x7fff_ffff_ffff_ffff_ffff_ffff_ffff_ffff,
    },
    Borders {
        width: 128,
        least: 0x8000_0000_0000_0000_0000_0000_0000_0000,
        greatest: 0x7fff_ffff_ffff_ffff_ffff_ffff_ffff_ffff,
        ones: 0xffff_ffff_ffff_ffff_ffff_ffff_ffff_ffff,
    },
];

/// Whether a number is a value of the width.
fn is_value(width: u32, n: u128) -> bool
    ensures from_1 { OnTrue result (1 ≤ width) }
    ensures to_128 { OnTrue result (width ≤ 128) }
    ensures below { OnTrue result (n < 2 ^ width) }
{
    if width < 1 || 128 < width {
        return false;
    }
    n <= ones(width)
}

fn binary_rows(w: Borders) -> [(BinOp, u128, u128, Result<u128, Trap>); 30] {
    let width = w.width as u128;
    let last = width.saturating_sub(1);
    [
        (BinOp::Add, w.ones, 1, Ok(0)),
        (BinOp::Add, w.greatest, 1, Ok(w.least)),
        (BinOp::Sub, 0, 1, Ok(w.ones)),
        (BinOp::Sub, w.least, 1, Ok(w.greatest)),
        (BinOp::Mul, w.ones, w.ones, Ok(1)),
        (BinOp::Mul, w.least, w.ones, Ok(w.least)),
        (BinOp::UDiv, w.ones, w.least, Ok(1)),
        (BinOp::UDiv, w.ones, 0, Err(Trap::DivZero)),
        (BinOp::SDiv, w.least, w.ones, Err(Trap::DivOverflow)),
        (BinOp::SDiv, 0, w.ones, Ok(0)),
        (BinOp::SDiv, w.least, 0, Err(Trap::DivZero)),
        (BinOp::URem, w.ones, w.least, Ok(w.greatest)),
        (BinOp::URem, w.ones, 0, Err(Trap::DivZero)),
        (BinOp::SRem, w.least, w.ones, Err(Trap::DivOverflow)),
        (BinOp::SRem, 0, w.ones, Ok(0)),
        (BinOp::SRem, w.least, 0, Err(Trap::DivZero)),
        (BinOp::Shl, 1, last, Ok(w.least)),
        (BinOp::Shl, 1, width, Ok(0)),
        (BinOp::Shl, w.ones, w.ones, Ok(0)),
        (BinOp::LShr, w.ones, last, Ok(1)),
        (BinOp::LShr, w.ones, width, Ok(0)),
        (BinOp::LShr, w.ones, w.ones, Ok(0)),
        (BinOp::AShr, w.least, last, Ok(w.ones)),
        (BinOp::AShr, w.least, width, Ok(w.ones)),
        (BinOp::AShr, w.greatest, last, Ok(0)),
        (BinOp::AShr, w.greatest, w.ones, Ok(0)),
        (BinOp::And, w.least, w.ones, Ok(w.least)),
        (BinOp::And, w.least, w.greatest, Ok(0)),
        (BinOp::Or, w.least, w.greatest, Ok(w.ones)),
        (BinOp::Xor, w.ones, w.least, Ok(w.greatest)),
    ]
}

#[test]
fn binary_operators_on_borders(rt: HostRuntime) {
    for w in BORDERS {
        for (op, a, b, want) in binary_rows(w) {
            assert!(rt; is_value(w.width, a) && is_value(w.width, b));
            assert_eq!(rt; binary(op, w.width, a, b), want);
        }
    }
    for (op, a, b, want) in [
        (BinOp::SDiv, 128, 255, Err(Trap::DivOverflow)),
        (BinOp::UDiv, 128, 255, Ok(0)),
        // -7 / 2 is -3, and -1 is left; 7 / -2 is -3, and 1 is left.
        (BinOp::SDiv, 249, 2, Ok(253)),
        (BinOp::SRem, 249, 2, Ok(255)),
        (BinOp::SDiv, 7, 254, Ok(253)),
        (BinOp::SRem, 7, 254, Ok(1)),
        (BinOp::Shl, 1, 8, Ok(0)),
        (BinOp::Shl, 0b1010_1010, 3, Ok(0b0101_0000)),
        (BinOp::LShr, 0b1010_1010, 3, Ok(0b0001_0101)),
        (BinOp::AShr, 0b1010_1010, 3, Ok(0b1111_0101)),
    ] {
        assert!(rt; is_value(8, a) && is_value(8, b));
        assert_eq!(rt; binary(op, 8, a, b), want);
    }
}

fn comparison_rows(w: Borders) -> [(Pred, u128, u128, bool); 20] {
    [
        (Pred::Eq, w.least, w.least, true),
        (Pred::Eq, w.least, w.greatest, false),
        (Pred::Ne, w.least, w.least, false),
        (Pred::Ne, w.least, w.greatest, true),
        (Pred::Ugt, w.least, w.greatest, true),
        (Pred::Ugt, w.least, w.least, false),
        (Pred::Uge, w.least, w.least, true),
        (Pred::Uge, w.greatest, w.least, false),
        (Pred::Ult, w.greatest, w.least, true),
        (Pred::Ult, w.least, w.least, false),
        (Pred::Ule, w.least, w.least, true),
        (Pred::Ule, w.least, w.greatest, false),
        (Pred::Sgt, w.greatest, w.least, true),
        (Pred::Sgt, w.least, w.least, false),
        (Pred::Sge, w.least, w.least, true),
        (Pred::Sge, w.least, w.greatest, false),
        (Pred::Slt, w.least, w.greatest, true),
        (Pred::Slt, w.least, w.least, false),
        (Pred::Sle, w.least, w.least, true),
        (Pred::Sle, w.greatest, w.least, false),
    ]
}

#[test]
fn comparisons_on_borders(rt: HostRuntime) {
    for w in BORDERS {
        for (pred, a, b, want) in comparison_rows(w) {
            assert!(rt; is_value(w.width, a) && is_value(w.width, b));
            assert_eq!(rt; compare(pred, w.width, a, b), want);
        }
    }
}

/// Conversions between a narrower and a wider type: whether the narrower one is converted, the value and the result.
fn conversion_rows(narrow: Borders, wide: Borders) -> [(CastOp, bool, u128, u128); 8] {
    [
        (CastOp::Trunc, false, wide.ones, narrow.ones),
        (CastOp::Trunc, false, wide.least, 0),
        (CastOp::ZExt, true, narrow.ones, narrow.ones),
        (CastOp::ZExt, true, narrow.least, narrow.least),
        (CastOp::SExt, true, narrow.ones, wide.ones),
        (CastOp::SExt, true, narrow.greatest, narrow.greatest),
        // The sign bit of the narrower type, and all bits above it.
        (
            CastOp::SExt,
            true,
            narrow.least,
            wide.ones ^ narrow.greatest,
        ),
        (CastOp::SExt, true, 0, 0),
    ]
}

#[test]
fn conversions_on_borders(rt: HostRuntime) {
    for narrow in BORDERS {
        for wide in BORDERS {
            if narrow.width < wide.width {
                for (op, widens, a, want) in conversion_rows(narrow, wide) {
                    let (from, to) = if widens {
                        (narrow.width, wide.width)
                    } else {
                        (wide.width, narrow.width)
                    };
                    assert!(rt; is_value(from, a) && is_value(to, want));
                    assert_eq!(rt; cast(op, from, to, a), want);
                }
            }
        }
    }
    assert_eq!(rt; cast(CastOp::SExt, 8, 33, 0x80), 0x1_ffff_ff80);
    assert_eq!(rt; cast(CastOp::Trunc, 33, 8, 0x1_2345_6789), 0x89);
}

fn bit_rows(w: Borders) -> [(BitOp, u128, u128, u128, u128); 27] {
    let width = w.width as u128;
    let last = width.saturating_sub(1);
    [
        (BitOp::CtPop, w.ones, 0, 0, width),
        (BitOp::CtPop, w.least, 0, 0, 1),
        (BitOp::CtPop, 0, 0, 0, 0),
        (BitOp::CtLz, 0, 0, 0, width),
        (BitOp::CtLz, 0, 1, 0, width),
        (BitOp::CtLz, 1, 1, 0, last),
        (BitOp::CtLz, w.least, 0, 0, 0),
        (BitOp::CtTz, 0, 0, 0, width),
        (BitOp::CtTz, 0, 1, 0, width),
        (BitOp::CtTz, w.least, 1, 0, last),
        (BitOp::CtTz, w.ones, 0, 0, 0),
        (BitOp::FShl, w.least, 0, width, w.least),
        (BitOp::FShl, w.ones, 0, last, w.least),
        (BitOp::FShl, 0, w.ones, last, w.greatest),
        (BitOp::FShr, 0, w.least, width, w.least),
        (BitOp::FShr, 0, w.least, last, 1),
        (BitOp::FShr, w.ones, 0, last, w.ones ^ 1),
        (BitOp::SMin, w.least, w.greatest, 0, w.least),
        (BitOp::SMin, w.greatest, w.least, 0, w.least),
        (BitOp::SMax, w.least, w.greatest, 0, w.greatest),
        (BitOp::SMax, w.greatest, w.least, 0, w.greatest),
        (BitOp::UMin, w.least, w.greatest, 0, w.greatest),
        (BitOp::UMax, w.least, w.greatest, 0, w.least),
        (BitOp::Abs, w.least, 1, 0, w.least),
        (BitOp::Abs, w.ones, 0, 0, 1),
        (BitOp::Abs, w.greatest, 0, 0, w.greatest),
        (BitOp::Expect, w.least, w.ones, 0, w.least),
    ]
}

#[test]
fn bit_intrinsics_on_borders(rt: HostRuntime) {
    for w in BORDERS {
        for (op, a, b, c, want) in bit_rows(w) {
            assert!(rt; is_value(w.width, a) && is_value(w.width, b) && is_value(w.width, c));
            assert_eq!(rt; bits(op, w.width, a, b, c), want);
        }
    }
    for (width, a, want) in [
        (16, 0x0102, 0x0201),
        (48, 0x0102_0304_0506, 0x0605_0403_0201),
        (64, 0x0102_0304_0506_0708, 0x0807_0605_0403_0201),
        (
            128,
            0x0102_0304_0506_0708_090a_0b0c_0d0e_0f10,
            0x100f_0e0d_0c0b_0a09_0807_0605_0403_0201,
        ),
    ] {
        assert!(rt; is_value(width, a));
        assert_eq!(rt; bits(BitOp::BSwap, width, a, 0, 0), want);
    }
    // The eight bits 1011_0010 beside 0110_1001, moved by 3 and by 8 + 3 places.
    for (op, places, want) in [
        (BitOp::FShl, 3, 0b1001_0011),
        (BitOp::FShl, 11, 0b1001_0011),
        (BitOp::FShr, 3, 0b0100_1101),
        (BitOp::FShr, 11, 0b0100_1101),
    ] {
        assert_eq!(rt; bits(op, 8, 0b1011_0010, 0b0110_1001, places), want);
    }
}

fn overflow_rows(w: Borders) -> [(OverOp, u128, u128, u128, bool); 15] {
    [
        (OverOp::SAdd, w.least, w.ones, w.greatest, true),
        (OverOp::SAdd, w.greatest, w.least, w.ones, false),
        (OverOp::SAdd, w.greatest, 0, w.greatest, false),
        (OverOp::UAdd, w.ones, 1, 0, true),
        (OverOp::UAdd, w.least, w.greatest, w.ones, false),
        (OverOp::SSub, w.greatest, w.ones, w.least, true),
        (OverOp::SSub, w.ones, w.greatest, w.least, false),
        (OverOp::SSub, w.least, w.least, 0, false),
        (OverOp::USub, 0, 1, w.ones, true),
        (OverOp::USub, w.least, w.greatest, 1, false),
        (OverOp::USub, w.least, w.least, 0, false),
        (OverOp::SMul, w.least, w.ones, w.least, true),
        (OverOp::SMul, w.least, 0, 0, false),
        (OverOp::UMul, w.ones, 1, w.ones, false),
        (OverOp::UMul, w.ones, 0, 0, false),
    ]
}

#[test]
fn overflow_intrinsics_on_borders(rt: HostRuntime) {
    for w in BORDERS {
        for (op, a, b, want, is_outside) in overflow_rows(w) {
            assert!(rt; is_value(w.width, a) && is_value(w.width, b));
            assert_eq!(rt; overflow(op, w.width, a, b), (want, is_outside));
        }
    }
    let half = 0x8000_0000_0000_0000;
    for (op, width, a, b, want, is_outside) in [
        (OverOp::SAdd, 8, 100, 28, 128, true),
        (OverOp::SAdd, 8, 100, 27, 127, false),
        // -16 * 8 is -128, and 16 * 8 is 128.
        (OverOp::SMul, 8, 240, 8, 128, false),
        (OverOp::SMul, 8, 16, 8, 128, true),
        (OverOp::UMul, 8, 15, 17, 255, false),
        (OverOp::UMul, 8, 16, 16, 0, true),
        // 2^63 * 2^63 is 2^126, and 2^64 * 2^64 is 2^128.
        (OverOp::SMul, 127, half, half, 1 << 126, true),
        (OverOp::SMul, 128, half, half, 1 << 126, false),
        (OverOp::UMul, 127, half, half, 1 << 126, false),
        (OverOp::UMul, 128, 2 * half, 2 * half, 0, true),
    ] {
        assert!(rt; is_value(width, a) && is_value(width, b));
        assert_eq!(rt; overflow(op, width, a, b), (want, is_outside));
    }
}
