use super::*;

/// `%t0 = type { %t1 }` and so on, or in the other order; the last one is `{ i8 }`.
fn chain(alloc: Global, count: u32, backwards: bool) -> Result<String, Fail> {
    let mut text = String::new(alloc);
    for i in 0..count {
        let n = if backwards { count - 1 - i } else { i };
        let line = if n == count - 1 {
            format!(in alloc; "%t{n} = type {{ i8 }}\n")?
        } else {
            let m = n + 1;
            format!(in alloc; "%t{n} = type {{ %t{m} }}\n")?
        };
        text.push_str(line.as_str())?;
    }
    text.push_str("define i32 @main() { ret i32 0 }\n")?;
    Ok(text)
}

#[test]
fn a_long_chain_of_types_has_sizes_in_either_order(rt: HostRuntime) -> Result<(), Fail> {
    for backwards in [false, true] {
        let text = chain(rt.alloc(), 100_000, backwards)?;
        let module = accepted(rt.alloc(), text.as_bytes())?;
        let mut sized: u64 = 0;
        for layout in module.layouts.as_slice().iter().take(200_000) {
            match layout {
                TypeLayout::Known { size, align } => {
                    assert_eq!(rt; *size, 1);
                    assert_eq!(rt; *align, 1);
                    sized = sized.saturating_add(1);
                }
                _ => {}
            }
        }
        assert_eq!(rt; sized, 200_000);
        assert_eq!(rt; module.layouts.len(), 200_260);
    }
    Ok(())
}

#[test]
fn a_text_may_have_16_mib(rt: HostRuntime) -> Result<(), Fail> {
    let mut spaces = vec![in rt.alloc(); b' '; 16_777_216]?;
    let whole = refused(rt.alloc(), &spaces)?;
    assert_eq!(rt; whole.as_str(), "refused: 9 NoMain at 1:16777217");
    spaces.push(b' ')?;
    let long = refused(rt.alloc(), &spaces)?;
    assert_eq!(rt; long.as_str(), "refused: 10 TooLarge Text at 1:1");
    Ok(())
}

#[test]
fn a_long_function_is_read(rt: HostRuntime) -> Result<(), Fail> {
    let mut text = String::from_str(rt.alloc(), "define i32 @main() {\nentry:\n")?;
    for i in 0u32..20_000 {
        text.push_str(format!(in rt.alloc(); "  %x{i} = add i32 1, {i}\n")?.as_str())?;
    }
    text.push_str("  ret i32 %x7\n}\n")?;
    let module = accepted(rt.alloc(), text.as_bytes())?;
    let Some(function) = module.functions.get(0) else {
        return Err(Fail::from("no function"));
    };
    assert_eq!(rt; function.insts.len(), 20_001);
    assert_eq!(rt; function.regs.len(), 20_000);
    assert_eq!(rt; function.blocks.len(), 1);
    Ok(())
}
