/// Where a type or an attribute stands, as far as productions differ by it.
#[derive(Clone, Copy, Debug, PartialEq, Eq)]
pub enum Context {
    /// In a definition, a call or a constant.
    Plain,
    /// Before `global` or `constant`: an alignment is at most 16.
    Global,
    /// Behind a global's initializer, as `Global`; a `section` there, which may have a string behind it, is a part of its own.
    GlobalTail,
    /// In a declare: `metadata` is a type, `external` and `extern_weak` are attributes.
    Declare,
    /// Behind the type of a declare's parameter, where no type may stand.
    Parameter,
    /// Behind a declare's parameters, where the next item may begin: `$` words are none.
    DeclareTail,
}
