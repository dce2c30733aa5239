use super::*;
use dbg_sites::Chains;
use hw_base::{Access, ByteList, OutOfMemory, Site, SizeList};
use hw_shadow::Mismatch;
use ir_core::{
    BlockList, DeclareList, Function, FunctionList, GlobalList, InstList, LayoutList, Meta, Module,
    Place, TypeIdList, TypeList,
};
use ir_machine::{Found, Raw};
use std::alloc::Global;
use std::test::Fail;
use tag_alloc::FreeMismatch;

fn named(alloc: Global, name: &[u8]) -> Result<Function, OutOfMemory> {
    Ok(Function {
        name: ByteList::from_vec(name.to_vec(alloc)?),
        params: 0,
        result: 0,
        regs: TypeIdList::new(alloc),
        allocas: SizeList::new(alloc),
        blocks: BlockList::new(alloc),
        insts: InstList::new(alloc),
        place: Place { line: 1, column: 1 },
    })
}

/// A module of the functions `main` and `fill` alone.
fn two_functions(alloc: Global) -> Result<Module, OutOfMemory> {
    let mut functions = FunctionList::new(alloc);
    functions.push(named(alloc, b"main".as_slice())?)?;
    functions.push(named(alloc, b"fill".as_slice())?)?;
    Ok(Module {
        types: TypeList::new(alloc),
        fields: TypeIdList::new(alloc),
        layouts: LayoutList::new(alloc),
        globals: GlobalList::new(alloc),
        declares: DeclareList::new(alloc),
        functions,
        main: 0,
        meta: Meta::new(alloc),
    })
}

/// The chain 1 of a site in `main`, and the chain 2 of a site in `fill` that `main` called.
#[tactic(auto, unfolding(dbg_sites::specs::ChainTable::pushed, dbg_sites::specs::ChainTable::entry_from))]
fn two_chains(alloc: Global) -> Result<Chains, OutOfMemory> {
    let mut chains = Chains::new(alloc);
    let outer = chains.push(0, Site { func: 0, inst: 0 })?;
    chains.push(outer, Site { func: 1, inst: 3 })?;
    Ok(chains)
}

const READ: Raw = Raw {
    access: Access::Read,
    size: 1,
    number: 0x1300_0000_0001_0010,
    task: 0,
    step: 1,
    chain: 1,
    found: Found::Memory(Mismatch::Unmapped(0x1_0010)),
};

const WRITE: Raw = Raw {
    access: Access::Write,
    size: 1,
    number: 0x1300_0000_0001_0010,
    task: 0,
    step: 2,
    chain: 1,
    found: Found::Memory(Mismatch::Tags {
        granule: 0x1_0010,
        pointer: 0x13,
        memory: 0x03,
        last: 0x14,
        end: 1,
    }),
};

/// A free in `fill`, of a block or of none.
fn free_of(block: Option<u8>) -> Raw {
    Raw {
        access: Access::Free,
        size: 0,
        number: 0x2b00_0000_2000_0010,
        task: 12,
        step: 34,
        chain: 2,
        found: Found::Block(FreeMismatch {
            pointer: 0x2b,
            block,
        }),
    }
}

#[test]
fn reports_are_spelled_so(rt: HostRuntime) -> Result<(), Fail> {
    let program = two_functions(rt.alloc())?;
    let chains = two_chains(rt.alloc())?;
    let rows = [
        (
            READ,
            "hwasan: read of 1 at 1300000000010010 in task 0, step 1\n  at main ?\nunmapped: 0000000000010010\n",
        ),
        (
            WRITE,
            "hwasan: write of 1 at 1300000000010010 in task 0, step 2\n  at main ?\ntags: pointer 13, memory 03, last 14, end 1, granule 0000000000010010\n",
        ),
        (
            free_of(None),
            "hwasan: free at 2b00000020000010 in task 12, step 34\n  at fill ?\n  at main ?\nblock: none\n",
        ),
        (
            free_of(Some(0x2a)),
            "hwasan: free at 2b00000020000010 in task 12, step 34\n  at fill ?\n  at main ?\nblock: tag 2a\n",
        ),
        (
            free_of(Some(0x05)),
            "hwasan: free at 2b00000020000010 in task 12, step 34\n  at fill ?\n  at main ?\nblock: tag 05\n",
        ),
    ];
    for (raw, expected) in rows {
        let text = report_text(rt.alloc(), &program, &chains, &raw)?;
        assert_eq!(rt; text.as_slice(), expected.as_bytes());
    }
    Ok(())
}
