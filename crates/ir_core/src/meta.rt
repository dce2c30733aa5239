use crate::OwnedList;
use hw_base::ByteList;

/// What a metadata node that is kept describes: `DILocation`, `DISubprogram`, `DIFile`, or anything else with a scope
/// (LLVM Language Reference, "Specialized Metadata Nodes").
#[derive(Clone, Copy)]
pub enum NodeKind {
    Location,
    Subprogram,
    File,
    Other,
}

/// A metadata node that is kept. `scope`, `inlined` and `file` are numbers of kept nodes. `name` is the name of a
/// subprogram or the file name of a file, and empty where there is none. A line or column that isn't there is 0.
#[derive(Drop)]
pub struct Node {
    pub kind: NodeKind,
    pub line: u32,
    pub column: u32,
    pub scope: Option<u32>,
    pub inlined: Option<u32>,
    pub file: Option<u32>,
    pub name: ByteList,
}

/// The metadata nodes that are kept, by their numbers in this list.
pub type Meta = OwnedList<Node>;
