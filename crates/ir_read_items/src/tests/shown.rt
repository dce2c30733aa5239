use super::*;
use ir_core::Token;
use ir_grammar::{
    SpelledConstant, SpelledInteger, SpelledItem, SpelledParameter, SpelledType, TypedConstant,
    TypedIndex,
};

/// A token's text.
fn name_of(alloc: Global, tokens: &Tokens, token: &Token) -> Result<String, Fail> {
    let text = std::str::from_utf8(tokens.text_of(token))?;
    Ok(String::from_str(alloc, text)?)
}

/// An integer with its sign.
fn integer(alloc: Global, spelled: &SpelledInteger) -> Result<String, Fail> {
    let magnitude = spelled.magnitude;
    let sign = if spelled.negative { "-" } else { "" };
    Ok(format!(in alloc; "{sign}{magnitude}")?)
}

/// The parts from `first` on, of a struct that is packed or not.
fn parts(alloc: Global, first: usize, count: usize, packed: bool) -> Result<String, Fail> {
    if packed {
        Ok(format!(in alloc; "<{first}+{count}>")?)
    } else {
        Ok(format!(in alloc; "{{{first}+{count}}}")?)
    }
}

/// A type: `o` is opaque, `m` metadata, `[COUNTxITEM]` an array.
fn spelled_type(alloc: Global, tokens: &Tokens, ty: &SpelledType) -> Result<String, Fail> {
    match ty {
        SpelledType::Void => Ok(String::from_str(alloc, "v")?),
        SpelledType::Ptr => Ok(String::from_str(alloc, "p")?),
        SpelledType::Opaque => Ok(String::from_str(alloc, "o")?),
        SpelledType::Metadata => Ok(String::from_str(alloc, "m")?),
        SpelledType::Int(width) => Ok(format!(in alloc; "i{width}")?),
        SpelledType::Named(token) => name_of(alloc, tokens, token),
        SpelledType::Array { count, item } => Ok(format!(in alloc; "[{count}x{item}]")?),
        SpelledType::Struct {
            first,
            count,
            packed,
        } => parts(alloc, *first, *count, *packed),
    }
}

/// A constant: an address as `gepTYPE,BASE,FIRST+COUNT`.
fn constant(alloc: Global, tokens: &Tokens, found: &SpelledConstant) -> Result<String, Fail> {
    match found {
        SpelledConstant::Local(token) => name_of(alloc, tokens, token),
        SpelledConstant::Global(token) => name_of(alloc, tokens, token),
        SpelledConstant::Bytes(token) => name_of(alloc, tokens, token),
        SpelledConstant::Integer(spelled) => integer(alloc, spelled),
        SpelledConstant::Bool(value) => Ok(format!(in alloc; "{value}")?),
        SpelledConstant::Null => Ok(String::from_str(alloc, "null")?),
        SpelledConstant::Zero => Ok(String::from_str(alloc, "zero")?),
        SpelledConstant::Array { first, count } => Ok(format!(in alloc; "[{first}+{count}]")?),
        SpelledConstant::Struct {
            first,
            count,
            packed,
        } => parts(alloc, *first, *count, *packed),
        SpelledConstant::Address {
            of,
            base,
            first,
            count,
        } => Ok(format!(in alloc; "gep{of},{base},{first}+{count}")?),
    }
}

/// A parameter: its type's number and its name.
fn parameter(alloc: Global, tokens: &Tokens, found: &SpelledParameter) -> Result<String, Fail> {
    let ty = found.ty;
    match &found.name {
        None => Ok(format!(in alloc; "{ty}")?),
        Some(token) => {
            let name = name_of(alloc, tokens, token)?;
            Ok(format!(in alloc; "{ty}{name}")?)
        }
    }
}

/// A name and what it stands for.
fn named(alloc: Global, tokens: &Tokens, token: &Token, what: &str) -> Result<String, Fail> {
    let name = name_of(alloc, tokens, token)?;
    Ok(format!(in alloc; "{name}{what}")?)
}

/// An item: `-` is skipped, `g` a variable, `c` a constant, each with the numbers of its type and value.
fn item(alloc: Global, tokens: &Tokens, found: &SpelledItem) -> Result<String, Fail> {
    match found {
        SpelledItem::Skipped => Ok(String::from_str(alloc, "-")?),
        SpelledItem::Used => Ok(String::from_str(alloc, "used")?),
        SpelledItem::Node { number } => name_of(alloc, tokens, number),
        SpelledItem::NodeList { name } => name_of(alloc, tokens, name),
        SpelledItem::Type { name, ty } => {
            let what = format!(in alloc; "={ty}")?;
            named(alloc, tokens, name, what.as_str())
        }
        SpelledItem::Global {
            name,
            constant,
            ty,
            value,
        } => {
            let word = if *constant { "c" } else { "g" };
            let what = format!(in alloc; ":{word}{ty}={value}")?;
            named(alloc, tokens, name, what.as_str())
        }
        SpelledItem::Declare {
            name,
            result,
            first,
            count,
        } => {
            let what = format!(in alloc; ":{result}({first}+{count})")?;
            named(alloc, tokens, name, what.as_str())
        }
        SpelledItem::Define {
            name,
            result,
            first,
            count,
            entry,
            blocks,
        } => {
            let what = format!(in alloc; ":{result}({first}+{count}){{{entry}+{blocks}}}")?;
            named(alloc, tokens, name, what.as_str())
        }
    }
}

/// The list of one letter with what was gathered behind it, and nothing for an empty list.
fn listed(alloc: Global, letter: &str, gathered: &str) -> Result<String, Fail> {
    if gathered.is_empty() {
        Ok(String::new(alloc))
    } else {
        Ok(format!(in alloc; "{letter}{gathered};")?)
    }
}

fn types(alloc: Global, tokens: &Tokens, list: &[SpelledType]) -> Result<String, Fail> {
    let mut out = String::new(alloc);
    for found in list {
        let one = spelled_type(alloc, tokens, found)?;
        out = format!(in alloc; "{out} {one}")?;
    }
    listed(alloc, "T", out.as_str())
}

fn fields(alloc: Global, list: &[usize]) -> Result<String, Fail> {
    let mut out = String::new(alloc);
    for found in list {
        out = format!(in alloc; "{out} {found}")?;
    }
    listed(alloc, "F", out.as_str())
}

fn constants(alloc: Global, tokens: &Tokens, list: &[SpelledConstant]) -> Result<String, Fail> {
    let mut out = String::new(alloc);
    for found in list {
        let one = constant(alloc, tokens, found)?;
        out = format!(in alloc; "{out} {one}")?;
    }
    listed(alloc, "C", out.as_str())
}

fn elements(alloc: Global, list: &[TypedConstant]) -> Result<String, Fail> {
    let mut out = String::new(alloc);
    for found in list {
        let (ty, value) = (found.ty, found.value);
        out = format!(in alloc; "{out} {ty}={value}")?;
    }
    listed(alloc, "E", out.as_str())
}

fn indices(alloc: Global, list: &[TypedIndex]) -> Result<String, Fail> {
    let mut out = String::new(alloc);
    for found in list {
        let ty = found.ty;
        let value = integer(alloc, &found.value)?;
        out = format!(in alloc; "{out} {ty}={value}")?;
    }
    listed(alloc, "X", out.as_str())
}

fn parameters(alloc: Global, tokens: &Tokens, list: &[SpelledParameter]) -> Result<String, Fail> {
    let mut out = String::new(alloc);
    for found in list {
        let one = parameter(alloc, tokens, found)?;
        out = format!(in alloc; "{out} {one}")?;
    }
    listed(alloc, "P", out.as_str())
}

fn items(alloc: Global, tokens: &Tokens, list: &[SpelledItem]) -> Result<String, Fail> {
    let mut out = String::new(alloc);
    for found in list {
        let one = item(alloc, tokens, found)?;
        out = format!(in alloc; "{out} {one}")?;
    }
    listed(alloc, "I", out.as_str())
}

/// Values: constants, and the elements and indices that they have.
fn values(alloc: Global, tokens: &Tokens, found: &Spellings) -> Result<String, Fail> {
    let constants = constants(alloc, tokens, found.constants.as_slice())?;
    let elements = elements(alloc, found.elements.as_slice())?;
    let indices = indices(alloc, found.indices.as_slice())?;
    Ok(format!(in alloc; "{constants}{elements}{indices}")?)
}

/// What was read: Types, Fields, Constants, Elements, indeXes, Parameters and Items, where there are any. What stands in
/// a list is named by its number.
pub fn spellings(alloc: Global, tokens: &Tokens, found: &Spellings) -> Result<String, Fail> {
    let types = types(alloc, tokens, found.types.as_slice())?;
    let fields = fields(alloc, found.fields.as_slice())?;
    let values = values(alloc, tokens, found)?;
    let parameters = parameters(alloc, tokens, found.parameters.as_slice())?;
    let items = items(alloc, tokens, found.items.as_slice())?;
    Ok(format!(in alloc; "{types}{fields}{values}{parameters}{items}")?)
}
