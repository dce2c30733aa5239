ghost use Rattle.std.specs.Prelude.{◌≡◌, drop, map, All, IfOk};
ghost use Rattle.std.specs.Char.{digit_value, is_ascii_digit};
ghost use Rattle.std.specs.List.{list_all};
ghost use Rattle.ir_grammar.specs.SoundStore.{IsInRange};
ghost use Rattle.ir_grammar.specs.KindOf.{kind_in, type_words, item_words, body_words, other_words, mark_table, is_int_type, int_kind, number_of, other_word, word_kind, count_kind, digits_of, integer_kind, mark_kind, is_token, integer_follows, equals_follows, local_kind, meta_name_kind, meta_name_follows, operand_follows, parens_follow, opens_parens, word_of, kind_before, global_kind, text_kind, token_kind, token_number, terminal_of, terminals_of, end_of_text, text_of};

use crate::{Kind, Terminal};
use hw_base::OutOfMemory;
use ir_core::{Place, Token, TokenKind, Tokens};
use ir_text::{is_debug_function, is_layout_taken, is_used_list};
use std::alloc::Global;

/// Words of types and values.
const TYPE_WORDS: [(&str, Kind); 23] = [
    ("ptr", Kind::Ptr),
    ("void", Kind::Void),
    ("label", Kind::LabelWord),
    ("metadata", Kind::MetadataWord),
    ("target", Kind::Target),
    ("half", Kind::OtherType),
    ("bfloat", Kind::OtherType),
    ("float", Kind::OtherType),
    ("double", Kind::OtherType),
    ("fp128", Kind::OtherType),
    ("x86_fp80", Kind::OtherType),
    ("ppc_fp128", Kind::OtherType),
    ("token", Kind::OtherType),
    ("x86_amx", Kind::OtherType),
    ("true", Kind::True),
    ("false", Kind::False),
    ("null", Kind::Null),
    ("undef", Kind::ZeroWord),
    ("poison", Kind::ZeroWord),
    ("zeroinitializer", Kind::ZeroWord),
    ("getelementptr", Kind::GetElementPtr),
    ("x", Kind::X),
    ("to", Kind::To),
];

/// Words of items and attributes.
const ITEM_WORDS: [(&str, Kind); 16] = [
    ("source_filename", Kind::SourceFilename),
    ("define", Kind::Define),
    ("declare", Kind::Declare),
    ("attributes", Kind::AttributesWord),
    ("global", Kind::GlobalWord),
    ("constant", Kind::ConstantWord),
    ("datalayout", Kind::DataLayout),
    ("triple", Kind::Triple),
    ("type", Kind::TypeWord),
    ("opaque", Kind::OpaqueWord),
    ("distinct", Kind::Distinct),
    ("section", Kind::Section),
    ("align", Kind::Align),
    ("cc", Kind::CallingConvention),
    ("external", Kind::External),
    ("extern_weak", Kind::External),
];

/// Words of instructions and terminators.
const BODY_WORDS: [(&str, Kind); 70] = [
    ("mul", Kind::Binary),
    ("udiv", Kind::Binary),
    ("sdiv", Kind::Binary),
    ("urem", Kind::Binary),
    ("srem", Kind::Binary),
    ("shl", Kind::Binary),
    ("lshr", Kind::Binary),
    ("ashr", Kind::Binary),
    ("add", Kind::BinaryRmw),
    ("sub", Kind::BinaryRmw),
    ("and", Kind::BinaryRmw),
    ("or", Kind::BinaryRmw),
    ("xor", Kind::BinaryRmw),
    ("xchg", Kind::Rmw),
    ("nand", Kind::Rmw),
    ("max", Kind::Rmw),
    ("min", Kind::Rmw),
    ("umax", Kind::Rmw),
    ("umin", Kind::Rmw),
    ("icmp", Kind::Icmp),
    ("trunc", Kind::Cast),
    ("zext", Kind::Cast),
    ("sext", Kind::Cast),
    ("freeze", Kind::Freeze),
    ("select", Kind::Select),
    ("phi", Kind::Phi),
    ("alloca", Kind::Alloca),
    ("load", Kind::Load),
    ("store", Kind::Store),
    ("fence", Kind::Fence),
    ("atomicrmw", Kind::AtomicRmw),
    ("cmpxchg", Kind::CmpXchg),
    ("extractvalue", Kind::ExtractValue),
    ("tail", Kind::TailWord),
    ("musttail", Kind::TailWord),
    ("notail", Kind::TailWord),
    ("call", Kind::Call),
    ("ret", Kind::Ret),
    ("br", Kind::Br),
    ("switch", Kind::Switch),
    ("unreachable", Kind::Unreachable),
    ("nsw", Kind::Flag),
    ("nuw", Kind::Flag),
    ("exact", Kind::Flag),
    ("disjoint", Kind::Flag),
    ("nneg", Kind::Flag),
    ("inbounds", Kind::Flag),
    ("nusw", Kind::Flag),
    ("inrange", Kind::InRange),
    ("samesign", Kind::SameSign),
    ("eq", Kind::Predicate),
    ("ne", Kind::Predicate),
    ("ugt", Kind::Predicate),
    ("uge", Kind::Predicate),
    ("ult", Kind::Predicate),
    ("ule", Kind::Predicate),
    ("sgt", Kind::Predicate),
    ("sge", Kind::Predicate),
    ("slt", Kind::Predicate),
    ("sle", Kind::Predicate),
    ("atomic", Kind::Atomic),
    ("volatile", Kind::Volatile),
    ("weak", Kind::Weak),
    ("unordered", Kind::Order),
    ("monotonic", Kind::Order),
    ("acquire", Kind::Order),
    ("release", Kind::Order),
    ("acq_rel", Kind::Order),
    ("seq_cst", Kind::Order),
    ("syncscope", Kind::SyncScope),
];

/// Words that this program doesn't take.
const OTHER_WORDS: [(&str, Kind); 52] = [
    ("asm", Kind::OtherWord),
    ("byval", Kind::OtherWord),
    ("inalloca", Kind::OtherWord),
    ("preallocated", Kind::OtherWord),
    ("swifterror", Kind::OtherWord),
    ("thread_local", Kind::OtherWord),
    ("addrspace", Kind::OtherWord),
    ("comdat", Kind::OtherWord),
    ("personality", Kind::OtherWord),
    ("prefix", Kind::OtherWord),
    ("prologue", Kind::OtherWord),
    ("alias", Kind::OtherWord),
    ("ifunc", Kind::OtherWord),
    ("module", Kind::OtherWord),
    ("uselistorder", Kind::OtherWord),
    ("uselistorder_bb", Kind::OtherWord),
    ("invoke", Kind::OtherWord),
    ("landingpad", Kind::OtherWord),
    ("resume", Kind::OtherWord),
    ("indirectbr", Kind::OtherWord),
    ("callbr", Kind::OtherWord),
    ("cleanupret", Kind::OtherWord),
    ("catchret", Kind::OtherWord),
    ("catchswitch", Kind::OtherWord),
    ("catchpad", Kind::OtherWord),
    ("cleanuppad", Kind::OtherWord),
    ("va_arg", Kind::OtherWord),
    ("fadd", Kind::OtherWord),
    ("fsub", Kind::OtherWord),
    ("fmul", Kind::OtherWord),
    ("fdiv", Kind::OtherWord),
    ("frem", Kind::OtherWord),
    ("fneg", Kind::OtherWord),
    ("fcmp", Kind::OtherWord),
    ("fptrunc", Kind::OtherWord),
    ("fpext", Kind::OtherWord),
    ("fptoui", Kind::OtherWord),
    ("fptosi", Kind::OtherWord),
    ("uitofp", Kind::OtherWord),
    ("sitofp", Kind::OtherWord),
    ("ptrtoint", Kind::OtherWord),
    ("ptrtoaddr", Kind::OtherWord),
    ("inttoptr", Kind::OtherWord),
    ("bitcast", Kind::OtherWord),
    ("addrspacecast", Kind::OtherWord),
    ("insertvalue", Kind::OtherWord),
    ("insertelement", Kind::OtherWord),
    ("extractelement", Kind::OtherWord),
    ("shufflevector", Kind::OtherWord),
    ("blockaddress", Kind::OtherWord),
    ("dso_local_equivalent", Kind::OtherWord),
    ("no_cfi", Kind::OtherWord),
];

/// Marks by themselves.
const MARK_TABLE: [(&str, Kind); 10] = [
    ("=", Kind::Equals),
    (",", Kind::Comma),
    ("(", Kind::OpenParen),
    (")", Kind::CloseParen),
    ("[", Kind::OpenSquare),
    ("]", Kind::CloseSquare),
    ("{", Kind::OpenBrace),
    ("}", Kind::CloseBrace),
    (">", Kind::Greater),
    ("...", Kind::Dots),
];

/// The kind of a text that stands in the table.
fn kind_in(mut table: &[(&str, Kind)], text: &[u8]) -> Option<Kind>
    ensures { result ≡ kind_in (map (λ e. (e.0.now, e.1)) table.entry.now) text.now }
{
    while let [(word, kind), rest @ ..] = table {
        if text == word.as_bytes() {
            return Some(*kind);
        }
        table = rest;
    }
    None
}

fn type_word(text: &[u8]) -> Option<Kind>
    ensures { result ≡ kind_in type_words text.now }
{
    kind_in(&TYPE_WORDS, text)
}

fn item_word(text: &[u8]) -> Option<Kind>
    ensures { result ≡ kind_in item_words text.now }
{
    kind_in(&ITEM_WORDS, text)
}

fn body_word(text: &[u8]) -> Option<Kind>
    ensures { result ≡ kind_in body_words text.now }
{
    kind_in(&BODY_WORDS, text)
}

fn word_not_taken(text: &[u8]) -> Option<Kind>
    ensures { result ≡ kind_in other_words text.now }
{
    kind_in(&OTHER_WORDS, text)
}

fn all_digits(digits: &[u8]) -> bool
    ensures { result ≡ list_all is_ascii_digit digits.now }
{
    digits.iter().all(|b| b.is_ascii_digit())
}

/// Whether it is `i` and digits.
fn is_int_type(text: &[u8]) -> bool
    ensures { result ≡ is_int_type text.now }
{
    match text {
        [] => false,
        [first, digits @ ..] => {
            if *first != b'i' {
                return false;
            }
            if digits.is_empty() {
                return false;
            }
            all_digits(digits)
        }
    }
}

fn digit_value(b: u8) -> u128
    ensures { result ≡ digit_value b }
{
    if b < 48 {
        36
    } else if b < 58 {
        b as u128 - 48
    } else if b < 65 {
        36
    } else if b < 91 {
        b as u128 - 55
    } else if b < 97 {
        36
    } else if b < 123 {
        b as u128 - 87
    } else {
        36
    }
}

/// The number of the digits; from 2^128 on it is 2^128 - 1.
fn number_of(digits: &[u8]) -> u128
    ensures { result ≡ number_of digits.now }
{
    let mut number: u128 = 0;
    for digit in digits {
        number = number
            .saturating_mul(10)
            .saturating_add(digit_value(*digit));
    }
    number
}

fn int_kind(width: u128) -> Kind
    ensures { result ≡ int_kind width }
{
    if width == 0 {
        Kind::EmptyIntType
    } else if width == 1 {
        Kind::BitType
    } else if width <= 128 {
        Kind::IntType
    } else {
        Kind::WideIntType
    }
}

#[tactic(auto, unfolding(crate::specs::KindOf::other_word))]
fn other_word(text: &[u8]) -> Kind
    ensures { result ≡ other_word text.now }
{
    if is_int_type(text) {
        return int_kind(number_of(behind_first(text)));
    }
    if text.starts_with("$".as_bytes()) {
        return Kind::DollarWord;
    }
    if text.starts_with("u0x".as_bytes()) || text.starts_with("s0x".as_bytes()) {
        return Kind::HexWord;
    }
    Kind::Word
}

/// The text without its first byte.
fn behind_first(text: &[u8]) -> &[u8]
    ensures { result.now ≡ drop 1 text.now }
{
    match text {
        [] => text,
        [_, rest @ ..] => rest,
    }
}

#[tactic(auto, unfolding(crate::specs::KindOf::word_kind))]
fn word_kind(text: &[u8]) -> Kind
    ensures { result ≡ word_kind text.now }
{
    if let Some(kind) = type_word(text) {
        return kind;
    }
    if let Some(kind) = item_word(text) {
        return kind;
    }
    if let Some(kind) = body_word(text) {
        return kind;
    }
    if let Some(kind) = word_not_taken(text) {
        return kind;
    }
    other_word(text)
}

fn count_kind(n: u128) -> Kind
    ensures { result ≡ count_kind n }
{
    if n.is_power_of_two() {
        if n <= 16 {
            Kind::SmallPower
        } else if n < 1 << 64 {
            Kind::Power
        } else {
            Kind::GreatPower
        }
    } else if n < 1 << 64 {
        Kind::Count
    } else {
        Kind::Great
    }
}

/// The digits of an integer, behind its `-`.
fn digits_of(text: &[u8]) -> &[u8]
    ensures { result.now ≡ digits_of text.now }
{
    if text.starts_with("-".as_bytes()) {
        behind_first(text)
    } else {
        text
    }
}

#[tactic(auto, unfolding(crate::specs::KindOf::integer_kind))]
fn integer_kind(text: &[u8]) -> Kind
    ensures { result ≡ integer_kind text.now }
{
    let number = number_of(digits_of(text));
    if text.starts_with("-".as_bytes()) && number != 0 {
        Kind::Negative
    } else {
        count_kind(number)
    }
}

#[tactic(auto, unfolding(crate::specs::KindOf::mark_kind))]
fn mark_kind(text: &[u8], integer: bool) -> Kind
    ensures { result ≡ mark_kind text.now integer }
{
    if let Some(kind) = kind_in(&MARK_TABLE, text) {
        return kind;
    }
    if text == "<".as_bytes() {
        if integer { Kind::Vector } else { Kind::Less }
    } else {
        Kind::OtherMark
    }
}

fn local_kind(equals: bool) -> Kind
    ensures { result ≡ local_kind equals }
{
    if equals {
        Kind::LocalDefinition
    } else {
        Kind::Local
    }
}

fn meta_name_kind(equals: bool) -> Kind
    ensures { result ≡ meta_name_kind equals }
{
    if equals {
        Kind::MetaDefinition
    } else {
        Kind::MetaName
    }
}

fn global_kind(alloc: Global, text: &[u8]) -> Result<Kind, OutOfMemory>
    ensures { IfOk result (λ kind. kind ≡ global_kind text.now) }
{
    if is_used_list(text) {
        return Ok(Kind::UsedGlobal);
    }
    if is_debug_function(alloc, text)? {
        Ok(Kind::DebugGlobal)
    } else {
        Ok(Kind::Global)
    }
}

fn text_kind(alloc: Global, text: &[u8]) -> Result<Kind, OutOfMemory>
    ensures { IfOk result (λ kind. kind ≡ text_kind text.now) }
{
    if is_layout_taken(alloc, text)? {
        Ok(Kind::Text)
    } else {
        Ok(Kind::OtherLayout)
    }
}

fn token_kind(
    alloc: Global,
    kind: TokenKind,
    text: &[u8],
    equals: bool,
    integer: bool,
) -> Result<Kind, OutOfMemory>
    ensures { IfOk result (λ found. found ≡ token_kind kind text.now equals integer) }
{
    match kind {
        TokenKind::Word => Ok(word_kind(text)),
        TokenKind::Label => Ok(Kind::Label),
        TokenKind::Integer => Ok(integer_kind(text)),
        TokenKind::Float => Ok(Kind::Float),
        TokenKind::Local => Ok(local_kind(equals)),
        TokenKind::Global => global_kind(alloc, text),
        TokenKind::MetaName => Ok(meta_name_kind(equals)),
        TokenKind::MetaNumber => Ok(Kind::MetaNumber),
        TokenKind::Bang => Ok(Kind::Bang),
        TokenKind::AttrNumber => Ok(Kind::AttrNumber),
        TokenKind::DebugRecord => Ok(Kind::DebugRecord),
        TokenKind::Text => text_kind(alloc, text),
        TokenKind::Bytes => Ok(Kind::Bytes),
        TokenKind::Mark => Ok(mark_kind(text, integer)),
    }
}

fn token_number(kind: TokenKind, text: &[u8]) -> u128
    ensures { result ≡ token_number kind text.now }
{
    match kind {
        TokenKind::Word => {
            if is_int_type(text) {
                number_of(behind_first(text))
            } else {
                0
            }
        }
        TokenKind::Integer => number_of(digits_of(text)),
        TokenKind::Label => 0,
        TokenKind::Float => 0,
        TokenKind::Local => 0,
        TokenKind::Global => 0,
        TokenKind::MetaName => 0,
        TokenKind::MetaNumber => 0,
        TokenKind::Bang => 0,
        TokenKind::AttrNumber => 0,
        TokenKind::DebugRecord => 0,
        TokenKind::Text => 0,
        TokenKind::Bytes => 0,
        TokenKind::Mark => 0,
    }
}

#[tactic(auto, unfolding(crate::specs::KindOf::is_token))]
fn is_token(kind: TokenKind, found: TokenKind) -> bool
    ensures { result ≡ is_token kind found }
{
    found == kind
}

/// Whether an integer comes next.
fn integer_follows(behind: &[Token]) -> bool
    ensures { result ≡ integer_follows behind.now }
{
    match behind {
        [] => false,
        [next, ..] => is_token(TokenKind::Integer, next.kind),
    }
}

/// Whether `=` comes next.
fn equals_follows(tokens: &Tokens, behind: &[Token]) -> bool
    ensures { result ≡ equals_follows tokens.now.source behind.now }
{
    match behind {
        [] => false,
        [next, ..] => is_token(TokenKind::Mark, next.kind)
            && tokens.text_of(next) == "=".as_bytes(),
    }
}

/// The kind that a token has as a word, and that of the end of the text for a token that is no word.
fn word_of(tokens: &Tokens, token: &Token) -> Kind
    ensures { result ≡ word_of tokens.now.source token.now }
{
    if is_token(TokenKind::Word, token.kind) {
        word_kind(tokens.text_of(token))
    } else {
        Kind::End
    }
}

fn opens_parens(tokens: &Tokens, token: &Token) -> bool
    ensures { result ≡ opens_parens tokens.now.source token.now }
{
    is_token(TokenKind::Mark, token.kind) && tokens.text_of(token) == "(".as_bytes()
}

/// Whether `(` or `inrange` comes after flags.
fn parens_follow(tokens: &Tokens, mut behind: &[Token]) -> bool
    ensures { result ≡ parens_follow tokens.now.source behind.now }
{
    while let [token, rest @ ..] = behind {
        let word = word_of(tokens, token);
        if !word.is(Kind::Flag) {
            return word.is(Kind::InRange) || opens_parens(tokens, token);
        }
        behind = rest;
    }
    false
}

/// Whether a local comes next that is no name of a result, or a `getelementptr` that is a constant.
fn operand_follows(tokens: &Tokens, behind: &[Token]) -> bool
    ensures { result ≡ operand_follows tokens.now.source behind.now }
{
    match behind {
        [] => false,
        [next, rest @ ..] => {
            let is_register = is_token(TokenKind::Local, next.kind)
                && !equals_follows(tokens, rest);
            is_register
                || word_of(tokens, next).is(Kind::GetElementPtr) && parens_follow(tokens, rest)
        }
    }
}

/// Whether a metadata name comes next.
fn meta_name_follows(behind: &[Token]) -> bool
    ensures { result ≡ meta_name_follows behind.now }
{
    match behind {
        [] => false,
        [next, ..] => is_token(TokenKind::MetaName, next.kind),
    }
}

/// The kind of a token that has this kind by itself, before these tokens.
#[tactic(auto, unfolding(crate::specs::KindOf::kind_before))]
fn kind_before(tokens: &Tokens, behind: &[Token], kind: Kind) -> Kind
    ensures { result ≡ kind_before tokens.now.source behind.now kind }
{
    if kind.is(Kind::Comma) {
        return if meta_name_follows(behind) {
            Kind::MetaComma
        } else {
            kind
        };
    }
    if kind.is(Kind::Void) {
        return if operand_follows(tokens, behind) {
            Kind::VoidBeforeOperand
        } else {
            kind
        };
    }
    kind
}

/// A token as the grammar sees it, before these.
fn terminal_of(
    alloc: Global,
    tokens: &Tokens,
    token: &Token,
    behind: &[Token],
) -> Result<Terminal, OutOfMemory>
    ensures { IfOk result (λ found. found ≡ terminal_of tokens.now.source token.now behind.now) }
{
    let text = tokens.text_of(token);
    let equals = equals_follows(tokens, behind);
    let integer = integer_follows(behind);
    let kind = token_kind(alloc, token.kind, text, equals, integer)?;
    Ok(Terminal {
        kind: kind_before(tokens, behind, kind),
        number: token_number(token.kind, text),
        token: *token,
    })
}

/// The end of the text, with its place.
fn end_of_text(place: Place) -> Terminal
    ensures { result ≡ end_of_text place }
{
    Terminal {
        kind: Kind::End,
        number: 0,
        token: Token {
            kind: TokenKind::Mark,
            from: 0,
            to: 0,
            place,
        },
    }
}

/// The tokens as the grammar sees them, and behind them the end of the text.
fn text_of(alloc: Global, tokens: &Tokens, end: Place) -> Result<Vec<Terminal>, OutOfMemory>
    ensures { IfOk result (λ found. found.items ≡ text_of tokens.now.source tokens.now.tokens end) }
{
    let mut found = Vec::new(alloc);
    let mut rest = tokens.as_slice();
    while let [token, behind @ ..] = rest {
        found.push(terminal_of(alloc, tokens, token, behind)?)?;
        rest = behind;
    }
    found.push(end_of_text(end))?;
    Ok(found)
}

/// The tokens as the grammar sees them, and behind them the end of the text, which stands at this place. The only error is
/// want of memory.
pub fn terminals(alloc: Global, tokens: &Tokens, end: Place) -> Result<Vec<Terminal>, OutOfMemory>
    ensures text { IfOk result (λ found. found.items ≡ text_of tokens.now.source tokens.now.tokens end) }
    ensures ranges { IfOk result (λ found. All IsInRange found.items) }
{
    let found = text_of(alloc, tokens, end)?;
    Ok(found)
}
