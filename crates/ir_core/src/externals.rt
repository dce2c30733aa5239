ghost use Rattle.std.specs.Prelude.{◌≡◌, ◌≢◌, ℕ, ◌≤◌, ◌<◌, ◌++◌, ◌↔◌, IsTrue, MatchOption, List, length, decimal};
ghost use Rattle.hw_base.specs.ByteSwap.{HasPairs};
ghost use Rattle.ir_core.specs.Externals.{IsExternal, name_stem, width_text, lib_name, IsWidth, IsThere, family};

use crate::Lib;
use hw_base::{BitOp, OverOp};

/// One function of each family of names. Those of the intrinsics at all widths stand here at width 0.
const FAMILIES: [Lib; 45] = [
    Lib::Malloc,
    Lib::Calloc,
    Lib::Free,
    Lib::Realloc,
    Lib::Memcpy,
    Lib::Memmove,
    Lib::Memset,
    Lib::LlvmMemcpy,
    Lib::LlvmMemmove,
    Lib::LlvmMemset,
    Lib::Memcmp,
    Lib::Strlen,
    Lib::Puts,
    Lib::Putchar,
    Lib::Getchar,
    Lib::Exit,
    Lib::Abort,
    Lib::LlvmTrap,
    Lib::PthreadCreate,
    Lib::PthreadJoin,
    Lib::MutexInit,
    Lib::MutexLock,
    Lib::MutexUnlock,
    Lib::MutexDestroy,
    Lib::LifetimeStart,
    Lib::LifetimeEnd,
    Lib::Assume,
    Lib::Bits {
        op: BitOp::BSwap,
        width: 0,
    },
    Lib::Bits {
        op: BitOp::CtPop,
        width: 0,
    },
    Lib::Bits {
        op: BitOp::CtLz,
        width: 0,
    },
    Lib::Bits {
        op: BitOp::CtTz,
        width: 0,
    },
    Lib::Bits {
        op: BitOp::FShl,
        width: 0,
    },
    Lib::Bits {
        op: BitOp::FShr,
        width: 0,
    },
    Lib::Bits {
        op: BitOp::SMin,
        width: 0,
    },
    Lib::Bits {
        op: BitOp::SMax,
        width: 0,
    },
    Lib::Bits {
        op: BitOp::UMin,
        width: 0,
    },
    Lib::Bits {
        op: BitOp::UMax,
        width: 0,
    },
    Lib::Bits {
        op: BitOp::Abs,
        width: 0,
    },
    Lib::Bits {
        op: BitOp::Expect,
        width: 0,
    },
    Lib::Overflow {
        op: OverOp::SAdd,
        width: 0,
    },
    Lib::Overflow {
        op: OverOp::UAdd,
        width: 0,
    },
    Lib::Overflow {
        op: OverOp::SSub,
        width: 0,
    },
    Lib::Overflow {
        op: OverOp::USub,
        width: 0,
    },
    Lib::Overflow {
        op: OverOp::SMul,
        width: 0,
    },
    Lib::Overflow {
        op: OverOp::UMul,
        width: 0,
    },
];

/// The function that a declared name means, or none exactly where it is no name of one. Widths in names are 1 to 128
/// bits, in decimal without leading zeros; a byte swap has a multiple of 16 bits (LLVM Language Reference, "Intrinsic
/// Functions").
pub fn external(name: &[u8]) -> Option<Lib>
    ensures { IsExternal name.now result }
{
    for known in FAMILIES {
        match member(known, name) {
            Some(lib) => return Some(lib),
            None => {}
        }
    }
    None
}

/// The function of a family that a name means.
fn member(known: Lib, name: &[u8]) -> Option<Lib>
    ensures { MatchOption result ((lib : Lib) → family lib ≡ family known → IsThere lib → lib_name lib ≢ name.now) (λ lib. IsThere lib × (lib_name lib ≡ name.now)) }
{
    match name.strip_prefix(stem(known).as_bytes()) {
        Some(rest) => with_width(known, rest),
        None => None,
    }
}

/// The function of a family whose name ends so.
fn with_width(known: Lib, rest: &[u8]) -> Option<Lib>
    ensures { MatchOption result ((lib : Lib) → family lib ≡ family known → IsThere lib → width_text lib ≢ rest.now) (λ lib. (family lib ≡ family known) × IsThere lib × (width_text lib ≡ rest.now)) }
{
    match known {
        Lib::Bits { op, .. } => match width_of(rest) {
            Some(width) => {
                if has_pairs(op, width) {
                    Some(Lib::Bits { op, width })
                } else {
                    None
                }
            }
            None => None,
        },
        Lib::Overflow { op, .. } => match width_of(rest) {
            Some(width) => Some(Lib::Overflow { op, width }),
            None => None,
        },
        other => { if rest.is_empty() { Some(other) } else { None } }
    }
}

/// Whether an intrinsic on bits is there at a width.
fn has_pairs(op: BitOp, width: u32) -> bool
    ensures { IsTrue result ↔ HasPairs op width }
{
    match op {
        BitOp::BSwap => width % 16 == 0,
        _ => true,
    }
}

/// The width in bits that these bytes are in decimal.
fn width_of(bytes: &[u8]) -> Option<u32>
    ensures { MatchOption result ((width : ℕ) → IsWidth width → decimal width ≢ bytes.now) (λ width. IsWidth width × (decimal width ≡ bytes.now)) }
{
    for width in 1..129u32 {
        if is_decimal(bytes, width) {
            return Some(width);
        }
    }
    None
}

/// Whether these bytes are a number in decimal.
fn is_decimal(bytes: &[u8], n: u32) -> bool
    requires { n < 1000 }
    ensures { IsTrue result ↔ (decimal n ≡ bytes.now) }
{
    let ones = b'0' + (n % 10) as u8;
    let tens = b'0' + (n / 10 % 10) as u8;
    let hundreds = b'0' + (n / 10 / 10) as u8;
    if n < 10 {
        bytes == [ones].as_slice()
    } else if n < 100 {
        bytes == [tens, ones].as_slice()
    } else {
        bytes == [hundreds, tens, ones].as_slice()
    }
}

/// A function's name, but for the width at its end.
fn stem(lib: Lib) -> &'static str
    ensures { result.now ≡ name_stem lib }
{
    match lib {
        Lib::Malloc => "malloc",
        Lib::Calloc => "calloc",
        Lib::Free => "free",
        Lib::Realloc => "realloc",
        Lib::Memcpy => "memcpy",
        Lib::Memmove => "memmove",
        Lib::Memset => "memset",
        Lib::LlvmMemcpy => "llvm.memcpy.p0.p0.i64",
        Lib::LlvmMemmove => "llvm.memmove.p0.p0.i64",
        Lib::LlvmMemset => "llvm.memset.p0.i64",
        Lib::Memcmp => "memcmp",
        Lib::Strlen => "strlen",
        Lib::Puts => "puts",
        Lib::Putchar => "putchar",
        Lib::Getchar => "getchar",
        Lib::Exit => "exit",
        Lib::Abort => "abort",
        Lib::LlvmTrap => "llvm.trap",
        Lib::PthreadCreate => "pthread_create",
        Lib::PthreadJoin => "pthread_join",
        Lib::MutexInit => "pthread_mutex_init",
        Lib::MutexLock => "pthread_mutex_lock",
        Lib::MutexUnlock => "pthread_mutex_unlock",
        Lib::MutexDestroy => "pthread_mutex_destroy",
        Lib::LifetimeStart => "llvm.lifetime.start.p0",
        Lib::LifetimeEnd => "llvm.lifetime.end.p0",
        Lib::Assume => "llvm.assume",
        Lib::Bits { op, .. } => bit_stem(op),
        Lib::Overflow { op, .. } => overflow_stem(op),
    }
}

/// The name of an intrinsic on bits, but for its width.
fn bit_stem(op: BitOp) -> &'static str
    ensures { result.now ≡ name_stem (Lib.Bits op 0) }
{
    match op {
        BitOp::BSwap => "llvm.bswap.i",
        BitOp::CtPop => "llvm.ctpop.i",
        BitOp::CtLz => "llvm.ctlz.i",
        BitOp::CtTz => "llvm.cttz.i",
        BitOp::FShl => "llvm.fshl.i",
        BitOp::FShr => "llvm.fshr.i",
        BitOp::SMin => "llvm.smin.i",
        BitOp::SMax => "llvm.smax.i",
        BitOp::UMin => "llvm.umin.i",
        BitOp::UMax => "llvm.umax.i",
        BitOp::Abs => "llvm.abs.i",
        BitOp::Expect => "llvm.expect.i",
    }
}

/// The name of an intrinsic with overflow, but for its width.
fn overflow_stem(op: OverOp) -> &'static str
    ensures { result.now ≡ name_stem (Lib.Overflow op 0) }
{
    match op {
        OverOp::SAdd => "llvm.sadd.with.overflow.i",
        OverOp::UAdd => "llvm.uadd.with.overflow.i",
        OverOp::SSub => "llvm.ssub.with.overflow.i",
        OverOp::USub => "llvm.usub.with.overflow.i",
        OverOp::SMul => "llvm.smul.with.overflow.i",
        OverOp::UMul => "llvm.umul.with.overflow.i",
    }
}
