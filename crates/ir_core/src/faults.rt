ghost use Rattle.std.specs.Prelude.{◌≡◌, Some};

use std::fmt;

/// A bound on the size of an accepted text.
#[derive(Clone, Copy, Debug, PartialEq, Eq)]
pub enum Limit {
    /// 16 MiB of text.
    Text,
    /// 64 open brackets.
    Nesting,
    /// 4,096 defined functions.
    Functions,
    /// 16,384 basic blocks in a function.
    Blocks,
    /// 262,144 instructions in a function.
    Instructions,
    /// 1,048,576 metadata nodes that are kept.
    MetaNodes,
    /// 16,777,200 bytes of global variables, by their rounded sizes.
    Globals,
    /// 2^40 bytes of one type.
    TypeSize,
}

/// Why a text is refused.
#[derive(Clone, Copy, Debug, PartialEq, Eq)]
pub enum Fault {
    /// No token can be read.
    BadToken,
    /// The tokens are no derivation of the grammar.
    BadSyntax,
    /// A form of LLVM IR that this program doesn't take.
    Unsupported,
    /// A type rule is broken.
    BadType,
    /// A name, block, node or function isn't there.
    Unknown,
    /// A name is defined twice, or a written number lies below the counter.
    Twice,
    /// Some path from the entry to a use has no definition.
    NotOnEveryPath,
    /// A phi's place or entries don't match.
    BadPhi,
    /// No `i32 @main()` or `i32 @main(i32, ptr)` is defined.
    NoMain,
    /// A limit is exceeded.
    TooLarge(Limit),
    /// The location of an instruction leads to a chain of scopes or inlined calls that returns to itself.
    MetaCycle,
}

impl Limit {
    ghost use Rattle.ir_core.specs.Faults.{limit_name};

    /// The limit's name as it is printed.
    pub fn name(self) -> &'static str
        ensures { result.now ≡ limit_name self }
    {
        match self {
            Limit::Text => "Text",
            Limit::Nesting => "Nesting",
            Limit::Functions => "Functions",
            Limit::Blocks => "Blocks",
            Limit::Instructions => "Instructions",
            Limit::MetaNodes => "MetaNodes",
            Limit::Globals => "Globals",
            Limit::TypeSize => "TypeSize",
        }
    }
}

impl fmt::Display for Limit {
    ghost use Rattle.ir_core.specs.Faults.{limit_name};

    ghost output = { λ limit. Some (limit_name limit) };

    fn fmt<W: fmt::Write>(&self, f: &mut fmt::Formatter<W>) -> fmt::Result {
        f.write_str(self.name())
    }
}

impl Fault {
    ghost use Rattle.ir_core.specs.Faults.{fault_number, fault_word};

    /// The fault's code, 1 to 11.
    pub fn number(self) -> u8
        ensures { result ≡ fault_number self }
    {
        match self {
            Fault::BadToken => 1,
            Fault::BadSyntax => 2,
            Fault::Unsupported => 3,
            Fault::BadType => 4,
            Fault::Unknown => 5,
            Fault::Twice => 6,
            Fault::NotOnEveryPath => 7,
            Fault::BadPhi => 8,
            Fault::NoMain => 9,
            Fault::TooLarge(_) => 10,
            Fault::MetaCycle => 11,
        }
    }

    /// The fault's name, without that of a limit.
    pub fn word(self) -> &'static str
        ensures { result.now ≡ fault_word self }
    {
        match self {
            Fault::BadToken => "BadToken",
            Fault::BadSyntax => "BadSyntax",
            Fault::Unsupported => "Unsupported",
            Fault::BadType => "BadType",
            Fault::Unknown => "Unknown",
            Fault::Twice => "Twice",
            Fault::NotOnEveryPath => "NotOnEveryPath",
            Fault::BadPhi => "BadPhi",
            Fault::NoMain => "NoMain",
            Fault::TooLarge(_) => "TooLarge",
            Fault::MetaCycle => "MetaCycle",
        }
    }
}

impl fmt::Display for Fault {
    ghost use Rattle.ir_core.specs.Faults.{fault_name};

    ghost output = { λ fault. Some (fault_name fault) };

    fn fmt<W: fmt::Write>(&self, f: &mut fmt::Formatter<W>) -> fmt::Result {
        match self {
            Fault::TooLarge(limit) => write!(f, "TooLarge {limit}"),
            other => f.write_str(other.word()),
        }
    }
}
