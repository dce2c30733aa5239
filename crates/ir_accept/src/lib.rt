//! Texts that are accepted: a text is read into a module, and the rules of types and flow and the limits are checked on it. The
//! main call is `accept`; what runs a program relies on it that a text is refused for its first fault alone, and that an accepted
//! module has all that a run needs.
#![tactic(auto)]

mod accepted;
mod laws;
mod typed;

pub use accepted::accept;
pub use laws::each_text_has_one_answer;
pub use typed::typed_module;

#[cfg(test)]
mod tests;
