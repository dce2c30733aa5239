use ir_core::Token;

/// A value in an instruction: what it is, and where its first token is.
#[derive(Clone, Copy, Debug, PartialEq, Eq)]
pub enum SpelledOperand {
    /// A register or a parameter, by its name.
    Register(Token),
    /// A constant: its first token, and its number.
    Constant { first: Token, number: usize },
}

/// A value in an instruction, and the number of its type.
#[derive(Clone, Copy, Debug, PartialEq, Eq)]
pub struct TypedOperand {
    pub ty: usize,
    pub value: SpelledOperand,
}

/// An entry of a phi: a value, and the name of the block that it comes from.
#[derive(Clone, Copy, Debug, PartialEq, Eq)]
pub struct SpelledIncoming {
    pub value: SpelledOperand,
    pub block: Token,
}

/// A case of a switch: an integer, and the name of the block that it leads to.
#[derive(Clone, Copy, Debug, PartialEq, Eq)]
pub struct SpelledCase {
    pub value: TypedOperand,
    pub block: Token,
}

/// Metadata of an instruction: its name, and the first token of its node.
#[derive(Clone, Copy, Debug, PartialEq, Eq)]
pub struct SpelledAttachment {
    pub name: Token,
    pub node: Token,
}

/// What an instruction or a terminator does, as it is spelled. Types are given by their numbers, lists by their first entry
/// and how many there are, and operators by their words. An alignment is the integer that states it.
#[derive(Clone, Copy, Debug, PartialEq, Eq)]
pub enum SpelledOperation {
    /// The operator is the instruction's word.
    Binary {
        a: TypedOperand,
        b: SpelledOperand,
    },
    Icmp {
        predicate: Token,
        a: TypedOperand,
        b: SpelledOperand,
    },
    /// `trunc`, `zext` or `sext`, by the instruction's word.
    Cast {
        a: TypedOperand,
        to: usize,
    },
    Freeze {
        a: TypedOperand,
    },
    Select {
        condition: SpelledOperand,
        a: TypedOperand,
        b: TypedOperand,
    },
    /// The entries are in the list of entries of phis.
    Phi {
        ty: usize,
        first: usize,
        count: usize,
    },
    /// Without a count it has room for one value.
    Alloca {
        ty: usize,
        count: Option<TypedOperand>,
        alignment: Option<Token>,
    },
    Load {
        ty: usize,
        pointer: SpelledOperand,
        alignment: Option<Token>,
    },
    Store {
        value: TypedOperand,
        pointer: SpelledOperand,
        alignment: Option<Token>,
    },
    /// The indices are in the list of operands.
    GetElementPtr {
        of: usize,
        base: SpelledOperand,
        first: usize,
        count: usize,
    },
    Fence,
    AtomicRmw {
        operator: Token,
        pointer: SpelledOperand,
        value: TypedOperand,
        alignment: Option<Token>,
    },
    CmpXchg {
        pointer: SpelledOperand,
        expected: TypedOperand,
        new: TypedOperand,
        alignment: Option<Token>,
    },
    /// Of a pair of the type `of` and `i1`; `part` is the integer.
    ExtractValue {
        of: usize,
        value: SpelledOperand,
        part: Token,
    },
    /// The arguments are in the list of operands.
    Call {
        name: Token,
        result: usize,
        first: usize,
        count: usize,
    },
    /// `ret`; the type is `void` where none but that is spelled.
    Return {
        ty: usize,
        value: Option<SpelledOperand>,
    },
    Jump {
        block: Token,
    },
    Branch {
        condition: SpelledOperand,
        yes: Token,
        no: Token,
    },
    /// The cases are in the list of cases.
    Switch {
        value: TypedOperand,
        other: Token,
        first: usize,
        count: usize,
    },
    Unreachable,
}

/// An instruction or a terminator: the name of its result where it is spelled, its first word, what it does, and the
/// `count` attachments from `first` on of the list of attachments.
#[derive(Clone, Copy, Debug, PartialEq, Eq)]
pub struct SpelledInstruction {
    pub result: Option<Token>,
    pub word: Token,
    pub operation: SpelledOperation,
    pub first: usize,
    pub count: usize,
}

/// A block: its label where it has one, and the `count` instructions from `first` on of the list of instructions. The last
/// one is its terminator.
#[derive(Clone, Copy, Debug, PartialEq, Eq)]
pub struct SpelledBlock {
    pub label: Option<Token>,
    pub first: usize,
    pub count: usize,
}
