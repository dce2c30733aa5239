ghost use Rattle.std.specs.Prelude.{◌≡◌};
ghost use Rattle.ir_grammar.specs.Words.{integers, texts, globals, commas, voids, meta_names, locals, common_attributes, refused_words, refused_types, refused_values};

use crate::{Context, Kind};

const INTEGERS: [Kind; 6] = [
    Kind::Count,
    Kind::SmallPower,
    Kind::Power,
    Kind::Negative,
    Kind::GreatPower,
    Kind::Great,
];

/// Words that are attributes wherever one may stand.
const COMMON_ATTRIBUTES: [Kind; 18] = [
    Kind::Word,
    Kind::DataLayout,
    Kind::Triple,
    Kind::TypeWord,
    Kind::OpaqueWord,
    Kind::Distinct,
    Kind::Flag,
    Kind::InRange,
    Kind::SameSign,
    Kind::Predicate,
    Kind::Rmw,
    Kind::Atomic,
    Kind::Volatile,
    Kind::Weak,
    Kind::Order,
    Kind::SyncScope,
    Kind::To,
    Kind::X,
];

/// What is refused as a value; from number 7 on as a type; from number 10 on wherever a type, a value or an attribute may
/// stand.
const REFUSED_VALUES: [Kind; 14] = [
    Kind::Float,
    Kind::Binary,
    Kind::BinaryRmw,
    Kind::Icmp,
    Kind::Cast,
    Kind::Select,
    Kind::ExtractValue,
    Kind::External,
    Kind::MetadataWord,
    Kind::Target,
    Kind::OtherWord,
    Kind::OtherType,
    Kind::LabelWord,
    Kind::WideIntType,
];

/// Any integer.
pub fn integers() -> &'static [Kind]
    ensures { result.now ≡ integers }
{
    &INTEGERS
}

/// A string.
pub fn texts() -> &'static [Kind]
    ensures { result.now ≡ texts }
{
    &[Kind::Text, Kind::OtherLayout]
}

/// A global, whatever its name.
pub fn globals() -> &'static [Kind]
    ensures { result.now ≡ globals }
{
    &[Kind::Global, Kind::UsedGlobal, Kind::DebugGlobal]
}

/// A comma, whatever follows it.
pub fn commas() -> &'static [Kind]
    ensures { result.now ≡ commas }
{
    &[Kind::Comma, Kind::MetaComma]
}

/// `void`, whatever follows it.
pub fn voids() -> &'static [Kind]
    ensures { result.now ≡ voids }
{
    &[Kind::Void, Kind::VoidBeforeOperand]
}

/// A metadata name, whatever follows it.
pub fn meta_names() -> &'static [Kind]
    ensures { result.now ≡ meta_names }
{
    &[Kind::MetaName, Kind::MetaDefinition]
}

/// A local, whatever follows it.
pub fn locals() -> &'static [Kind]
    ensures { result.now ≡ locals }
{
    &[Kind::Local, Kind::LocalDefinition]
}

/// Words that are attributes wherever one may stand.
pub(crate) fn common_attributes() -> &'static [Kind]
    ensures { result.now ≡ common_attributes }
{
    &COMMON_ATTRIBUTES
}

/// Words that are Unsupported where a type, a value or an attribute may stand.
pub fn refused_words() -> &'static [Kind]
    ensures { result.now ≡ refused_words }
{
    &REFUSED_VALUES[10..]
}

/// Words that are Unsupported where a type may stand.
pub fn refused_types(context: Context) -> &'static [Kind]
    ensures { result.now ≡ refused_types context }
{
    match context {
        Context::Declare | Context::DeclareTail => &REFUSED_VALUES[9..],
        Context::Plain | Context::Global | Context::GlobalTail | Context::Parameter => {
            &REFUSED_VALUES[7..]
        }
    }
}

/// Words and literals that are Unsupported where a value may stand.
pub fn refused_values() -> &'static [Kind]
    ensures { result.now ≡ refused_values }
{
    &REFUSED_VALUES
}
