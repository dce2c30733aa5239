ghost use Rattle.std.specs.Prelude.{◌≡◌, ℕ, List, ◌⊎◌};
ghost use Rattle.ir_core.specs.declared.token.Token.{Token};
ghost use Rattle.ir_core.specs.declared.refusals.Place.{Place};
ghost use Rattle.ir_core.specs.Tokenisation.{IsTokenisation, IsBadTokenAt, joined};

/// The law of tokens. A text has one tokenisation or one place of a bad token, and never both; and the gaps and the
/// tokens' bytes, one after the other, are the text, so that nothing is lost or made.
pub fn each_text_is_cut_in_one_way()
    ensures one_tokenisation { (text : List ℕ) (a b : List Token) → IsTokenisation text a → IsTokenisation text b → a ≡ b }
    ensures one_bad_place { (text : List ℕ) (a b : Place) → IsBadTokenAt text a → IsBadTokenAt text b → a ≡ b }
    ensures never_both { (text : List ℕ) (tokens : List Token) (place : Place) → IsTokenisation text tokens → IsBadTokenAt text place → ⊥ }
    ensures one_of_them { (text : List ℕ) → ((tokens : List Token) × IsTokenisation text tokens) ⊎ ((place : Place) × IsBadTokenAt text place) }
    ensures nothing_lost { (text : List ℕ) (tokens : List Token) → IsTokenisation text tokens → joined text 0 tokens ≡ text }
{}
