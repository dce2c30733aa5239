ghost use Rattle.std.specs.Prelude.{◌≡◌};
ghost use Rattle.ir_grammar.specs.Kinds.{is_same, is_among};

/// What the grammar decides by: a terminal symbol. Words that stand in the same places of every production are one kind.
/// `specs/KindOf.antt` says which kind a token has.
#[derive(Clone, Copy, Debug, PartialEq, Eq)]
pub enum Kind {
    /// The end of the text, behind its last token.
    End,
    // Marks.
    Equals,
    Comma,
    /// A comma before a metadata name.
    MetaComma,
    OpenParen,
    CloseParen,
    OpenSquare,
    CloseSquare,
    OpenBrace,
    CloseBrace,
    Less,
    Greater,
    /// `<` before an integer: a vector.
    Vector,
    /// `...`
    Dots,
    /// `*` or `|`, of no production.
    OtherMark,
    // Names and literals.
    Label,
    Local,
    /// A local before `=`.
    LocalDefinition,
    Global,
    /// `@llvm.used` or `@llvm.compiler.used`.
    UsedGlobal,
    /// A global whose name begins with `llvm.dbg.`.
    DebugGlobal,
    MetaName,
    /// A metadata name before `=`.
    MetaDefinition,
    MetaNumber,
    Bang,
    AttrNumber,
    DebugRecord,
    Text,
    /// A string that, as a datalayout, this program doesn't take.
    OtherLayout,
    Bytes,
    Float,
    /// An integer below 0.
    Negative,
    /// 1, 2, 4, 8 or 16.
    SmallPower,
    /// A power of two from 32 to 2^63.
    Power,
    /// Another integer from 0 to 2^64 - 1.
    Count,
    /// A power of two from 2^64 on.
    GreatPower,
    /// Another integer from 2^64 on.
    Great,
    // Types.
    /// `i1`
    BitType,
    /// `iN` with N from 2 to 128.
    IntType,
    /// `i0`, which no production has.
    EmptyIntType,
    /// `iN` with N above 128.
    WideIntType,
    Ptr,
    Void,
    /// `void` before a local that no `=` follows, or before `getelementptr` with `(` or `inrange` after its flags: behind
    /// `ret` an operand follows.
    VoidBeforeOperand,
    /// `label`
    LabelWord,
    /// `metadata`
    MetadataWord,
    /// `target`, which begins an item and is a type of other texts.
    Target,
    /// A type that this program doesn't take, as `float`.
    OtherType,
    // Values.
    True,
    False,
    Null,
    /// `undef`, `poison` or `zeroinitializer`.
    ZeroWord,
    GetElementPtr,
    // Items.
    SourceFilename,
    Define,
    Declare,
    /// `attributes`
    AttributesWord,
    /// `global`
    GlobalWord,
    /// `constant`
    ConstantWord,
    /// `datalayout`
    DataLayout,
    /// `triple`
    Triple,
    /// `type`
    TypeWord,
    /// `opaque`
    OpaqueWord,
    /// `distinct`
    Distinct,
    /// `section`
    Section,
    // Attributes.
    Align,
    /// `cc`
    CallingConvention,
    /// A word that no other kind takes.
    Word,
    /// Another word that begins with `$`.
    DollarWord,
    /// Another word that begins with `u0x` or `s0x`.
    HexWord,
    /// `external` or `extern_weak`.
    External,
    /// A word of LLVM IR that this program doesn't take, as `asm`.
    OtherWord,
    // Bodies.
    /// An operator of two operands that `atomicrmw` hasn't, as `mul`.
    Binary,
    /// An operator of two operands that `atomicrmw` has too, as `add`.
    BinaryRmw,
    /// An operator of `atomicrmw` alone, as `xchg`.
    Rmw,
    Icmp,
    /// `trunc`, `zext` or `sext`.
    Cast,
    Freeze,
    Select,
    Phi,
    Alloca,
    Load,
    Store,
    Fence,
    AtomicRmw,
    CmpXchg,
    ExtractValue,
    /// `tail`, `musttail` or `notail`.
    TailWord,
    Call,
    Ret,
    Br,
    Switch,
    Unreachable,
    /// `nsw`, `nuw`, `exact`, `disjoint`, `nneg`, `inbounds` or `nusw`.
    Flag,
    InRange,
    SameSign,
    /// A predicate of `icmp`.
    Predicate,
    Atomic,
    Volatile,
    Weak,
    /// An atomic ordering.
    Order,
    SyncScope,
    To,
    X,
}

impl Kind {
    /// Whether it is this kind.
    #[tactic(auto, unfolding(crate::specs::Kinds::is_same))]
    pub fn is(self, other: Kind) -> bool
        ensures { result ≡ is_same self other }
    {
        self == other
    }

    /// Whether it is one of these kinds.
    pub fn is_among(self, kinds: &[Kind]) -> bool
        ensures { result ≡ is_among kinds.now self }
    {
        kinds.iter().any(|kind| self.is(*kind))
    }
}
