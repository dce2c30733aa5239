use super::*;
use std::test::Fail;

mod function_names;
mod layout_table;
mod long_chains;

#[test]
fn a_refusal_is_printed_with_code_name_and_place(rt: HostRuntime) -> Result<(), Fail> {
    let table = [
        (Fault::BadToken, "refused: 1 BadToken at 1:19\n"),
        (Fault::BadSyntax, "refused: 2 BadSyntax at 1:19\n"),
        (Fault::Unsupported, "refused: 3 Unsupported at 1:19\n"),
        (Fault::BadType, "refused: 4 BadType at 1:19\n"),
        (Fault::Unknown, "refused: 5 Unknown at 1:19\n"),
        (Fault::Twice, "refused: 6 Twice at 1:19\n"),
        (Fault::NotOnEveryPath, "refused: 7 NotOnEveryPath at 1:19\n"),
        (Fault::BadPhi, "refused: 8 BadPhi at 1:19\n"),
        (Fault::NoMain, "refused: 9 NoMain at 1:19\n"),
        (
            Fault::TooLarge(Limit::Text),
            "refused: 10 TooLarge Text at 1:19\n",
        ),
        (
            Fault::TooLarge(Limit::MetaNodes),
            "refused: 10 TooLarge MetaNodes at 1:19\n",
        ),
        (Fault::MetaCycle, "refused: 11 MetaCycle at 1:19\n"),
    ];
    for (fault, want) in table {
        let refusal = Refusal {
            fault,
            line: 1,
            column: 19,
        };
        let text = refusal.text(rt.alloc()).ok().ok_or("memory")?;
        assert_eq!(rt; text.as_slice(), want.as_bytes());
    }
    Ok(())
}
