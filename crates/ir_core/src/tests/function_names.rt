use super::super::*;
use hw_base::{BitOp, OverOp};
use std::test::Fail;

#[test]
fn names_mean_their_functions(rt: HostRuntime) -> Result<(), Fail> {
    let table = [
        ("malloc", Lib::Malloc),
        ("calloc", Lib::Calloc),
        ("free", Lib::Free),
        ("realloc", Lib::Realloc),
        ("memcpy", Lib::Memcpy),
        ("memmove", Lib::Memmove),
        ("memset", Lib::Memset),
        ("llvm.memcpy.p0.p0.i64", Lib::LlvmMemcpy),
        ("llvm.memmove.p0.p0.i64", Lib::LlvmMemmove),
        ("llvm.memset.p0.i64", Lib::LlvmMemset),
        ("memcmp", Lib::Memcmp),
        ("strlen", Lib::Strlen),
        ("puts", Lib::Puts),
        ("putchar", Lib::Putchar),
        ("getchar", Lib::Getchar),
        ("exit", Lib::Exit),
        ("abort", Lib::Abort),
        ("llvm.trap", Lib::LlvmTrap),
        ("pthread_create", Lib::PthreadCreate),
        ("pthread_join", Lib::PthreadJoin),
        ("pthread_mutex_init", Lib::MutexInit),
        ("pthread_mutex_lock", Lib::MutexLock),
        ("pthread_mutex_unlock", Lib::MutexUnlock),
        ("pthread_mutex_destroy", Lib::MutexDestroy),
        ("llvm.lifetime.start.p0", Lib::LifetimeStart),
        ("llvm.lifetime.end.p0", Lib::LifetimeEnd),
        ("llvm.assume", Lib::Assume),
        (
            "llvm.bswap.i16",
            Lib::Bits {
                op: BitOp::BSwap,
                width: 16,
            },
        ),
        (
            "llvm.bswap.i128",
            Lib::Bits {
                op: BitOp::BSwap,
                width: 128,
            },
        ),
        (
            "llvm.ctpop.i1",
            Lib::Bits {
                op: BitOp::CtPop,
                width: 1,
            },
        ),
        (
            "llvm.ctlz.i32",
            Lib::Bits {
                op: BitOp::CtLz,
                width: 32,
            },
        ),
        (
            "llvm.cttz.i9",
            Lib::Bits {
                op: BitOp::CtTz,
                width: 9,
            },
        ),
        (
            "llvm.fshl.i64",
            Lib::Bits {
                op: BitOp::FShl,
                width: 64,
            },
        ),
        (
            "llvm.fshr.i99",
            Lib::Bits {
                op: BitOp::FShr,
                width: 99,
            },
        ),
        (
            "llvm.smin.i100",
            Lib::Bits {
                op: BitOp::SMin,
                width: 100,
            },
        ),
        (
            "llvm.smax.i8",
            Lib::Bits {
                op: BitOp::SMax,
                width: 8,
            },
        ),
        (
            "llvm.umin.i8",
            Lib::Bits {
                op: BitOp::UMin,
                width: 8,
            },
        ),
        (
            "llvm.umax.i8",
            Lib::Bits {
                op: BitOp::UMax,
                width: 8,
            },
        ),
        (
            "llvm.abs.i32",
            Lib::Bits {
                op: BitOp::Abs,
                width: 32,
            },
        ),
        (
            "llvm.expect.i1",
            Lib::Bits {
                op: BitOp::Expect,
                width: 1,
            },
        ),
        (
            "llvm.sadd.with.overflow.i32",
            Lib::Overflow {
                op: OverOp::SAdd,
                width: 32,
            },
        ),
        (
            "llvm.uadd.with.overflow.i128",
            Lib::Overflow {
                op: OverOp::UAdd,
                width: 128,
            },
        ),
        (
            "llvm.ssub.with.overflow.i8",
            Lib::Overflow {
                op: OverOp::SSub,
                width: 8,
            },
        ),
        (
            "llvm.usub.with.overflow.i1",
            Lib::Overflow {
                op: OverOp::USub,
                width: 1,
            },
        ),
        (
            "llvm.smul.with.overflow.i64",
            Lib::Overflow {
                op: OverOp::SMul,
                width: 64,
            },
        ),
        (
            "llvm.umul.with.overflow.i10",
            Lib::Overflow {
                op: OverOp::UMul,
                width: 10,
            },
        ),
    ];
    for (name, want) in table {
        assert_eq!(rt; external(name.as_bytes()), Some(want), "{name}");
    }
    Ok(())
}

#[test]
fn other_names_mean_nothing(rt: HostRuntime) -> Result<(), Fail> {
    for name in [
        "",
        "mallo",
        "malloc2",
        "Malloc",
        "llvm.memcpy.p0.p0.i32",
        "llvm.bswap.i8",
        "llvm.bswap.i17",
        "llvm.bswap.i144",
        "llvm.ctpop.i",
        "llvm.ctpop.i0",
        "llvm.ctpop.i032",
        "llvm.ctpop.i129",
        "llvm.ctpop.i1000",
        "llvm.ctpop.i32x",
        "llvm.sadd.with.overflow.i129",
        "llvm.sadd.sat.i32",
    ] {
        assert_eq!(rt; external(name.as_bytes()), None, "{name}");
    }
    Ok(())
}
