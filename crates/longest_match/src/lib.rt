//! Texts cut into lexemes, each the longest that stands where it stands.
#![tactic(auto)]

ghost use Rattle.longest_match.specs.Lexemes.{Lexicon, IsCutOnce};

/// The law of cutting, whatever the words of a language are: a text is cut in one way, up to its end or to a byte that
/// begins no lexeme.
pub fn is_cut_once<Shape, Place, Token>()
    ensures { (words : Lexicon Shape Place Token) → IsCutOnce words }
{}
