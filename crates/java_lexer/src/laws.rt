//! What is so of all texts. The functions do nothing: their contracts are the laws.

ghost use Rattle.std.specs.Prelude.{◌≡◌, ℕ, ◌<◌, ◌≤◌, ◌+◌, ◌-◌, true, false, List, [], ◌∷◌, ◌++◌, Some, length, slice_get, take, drop, map};
ghost use Rattle.std.specs.Str.{IsUtf8};
ghost use Rattle.java_lexer.specs.declared.piece.Class.{Class};
ghost use Rattle.java_lexer.specs.Lexing.{kind, Lexes, Fails};
ghost use Rattle.java_lexer.specs.Bytes.{head, in_line, is_part, is_start};
ghost use Rattle.java_lexer.specs.Pieces.{IsFront};
ghost use Rattle.java_lexer.specs.Splice.{is_stop, is_apart, Follows, IsCut, moved, IsWord, word_token, spaced, AreWords, with_words, IsLoose};

use crate::piece::Class;
use java_tree::tree::Token;

/// A text has one list of tokens or breaks one rule at one place, and never both.
pub fn one_lexing()
    ensures tokens { (text : List ℕ) (ts us : List Token) → Lexes text ts → Lexes text us → ts ≡ us }
    ensures fault { (text : List ℕ) (m n at place : ℕ) → Fails text m at → Fails text n place → (m ≡ n) × (at ≡ place) }
    ensures apart { (text : List ℕ) (ts : List Token) (n at : ℕ) → Lexes text ts → Fails text n at → ⊥ }
{}

/// Each token has some bytes of the text, and ends before a later one begins. So there are no more tokens than bytes.
pub fn in_order()
    ensures within { (text : List ℕ) (ts : List Token) → Lexes text ts
        → (i : ℕ) (t : Token) → slice_get ts i ≡ Some t → (t.span.from < t.span.to) × (t.span.to ≤ length text) }
    ensures order { (text : List ℕ) (ts : List Token) → Lexes text ts
        → (i j : ℕ) (a b : Token) → i < j → slice_get ts i ≡ Some a → slice_get ts j ≡ Some b → a.span.to ≤ b.span.from }
    ensures count { (text : List ℕ) (ts : List Token) → Lexes text ts → length ts ≤ length text }
{}

/// The bytes of a token are UTF-8, and they are a piece of a class of the token's kind, as long as they are.
pub fn token_bytes()
    ensures { (text : List ℕ) (ts : List Token) → Lexes text ts → (i : ℕ) (t : Token) → slice_get ts i ≡ Some t
        → let w = take (t.span.to - t.span.from) (drop t.span.from text) in
        IsUtf8 w × (class : Class) × IsFront class (length w) w × (kind class w ≡ Some t.kind) }
{}

/// A text is cut in front of each of its tokens, and behind it; there the last piece has a class of the token's kind. What is cut is
/// the text.
pub fn cut_texts()
    ensures whole { (front back : List ℕ) (last : Class) (before after : List Token) → IsCut front back last before after → Lexes (front ++ back) (before ++ after) }
    ensures at { (text : List ℕ) (ts : List Token) → Lexes text ts → (i : ℕ) (t : Token) → slice_get ts i ≡ Some t
        → (last : Class) × IsCut (take t.span.from text) (drop t.span.from text) last (take i ts) (drop i ts) }
    ensures behind { (text : List ℕ) (ts : List Token) → Lexes text ts → (i : ℕ) (t : Token) → slice_get ts i ≡ Some t
        → (last : Class) × (kind last (take (t.span.to - t.span.from) (drop t.span.from text)) ≡ Some t.kind)
        × IsCut (take t.span.to text) (drop t.span.to text) last (take (i + 1) ts) (drop (i + 1) ts) }
    ensures start { (text : List ℕ) (ts : List Token) → Lexes text ts → IsCut [] text Class.Blank [] ts }
    ensures end { (text : List ℕ) (ts : List Token) → Lexes text ts → (last : Class) × IsCut text [] last ts [] }
{}

/// The front of a text and the back of another, put together, have their tokens, where the back may follow the front's last piece. So
/// bytes of a text may become others that have tokens by themselves, or none, and the other tokens stay.
pub fn joined_texts()
    ensures joined { (front old pre back : List ℕ) (a b : Class) (rs ss ts us : List Token) → IsCut front old a rs ss → IsCut pre back b ts us → Follows a back
        → IsCut front back a rs (map (moved (length pre) (length front)) us) }
    ensures spliced { (front old pre back new : List ℕ) (a b last : Class) (rs ss ts us ns : List Token) → IsCut front old a rs ss → IsCut new [] last ns []
        → IsCut pre back b ts us → Follows a (new ++ back) → Follows last back
        → Lexes (front ++ (new ++ back)) (rs ++ map (moved 0 (length front)) (ns ++ map (moved (length pre) (length new)) us)) }

    // Behind what was not followed by the end of its line there may be white space.
    ensures stop { (front old : List ℕ) (b z : ℕ) (a : Class) (rs ss : List Token) → IsCut front (b ∷ old) a rs ss → in_line b ≡ true → is_stop z ≡ true
        → is_apart a z ≡ true }

    // Where an identifier stood there may be another, if a space, a comment or an operator is directly in front, or nothing.
    ensures start { (front old : List ℕ) (b z : ℕ) (a : Class) (rs ss : List Token) → IsCut front (b ∷ old) a rs ss → is_start b ≡ true
        → IsLoose (length front) rs → is_start z ≡ true → is_apart a z ≡ true }
{}

/// A word in the place of bytes of a text; words, each behind a space; a space, as for a cast that is taken away.
pub fn put_between()
    ensures word { (front old pre back w : List ℕ) (a b : Class) (rs ss ts us : List Token) → IsCut front old a rs ss → IsCut pre back b ts us → IsWord w
        → Follows a w → is_part (head back) ≡ false
        → IsCut front (w ++ back) a rs (map (moved 0 (length front)) (word_token w ∷ map (moved (length pre) (length w)) us)) }
    ensures words { (front old pre back w : List ℕ) (ws : List (List ℕ)) (a b : Class) (rs ss ts us : List Token) → IsCut front old a rs ss
        → IsCut pre back b ts us → AreWords (w ∷ ws) → is_apart a 32 ≡ true → is_part (head back) ≡ false
        → IsCut front (spaced (w ∷ ws) ++ back) a rs (map (moved 0 (length front)) (with_words (length pre) (w ∷ ws) us)) }
    ensures space { (front old pre back : List ℕ) (a b : Class) (rs ss ts us : List Token) → IsCut front old a rs ss → IsCut pre back b ts us
        → is_apart a 32 ≡ true → IsCut front (32 ∷ back) a rs (map (moved 0 (length front)) (map (moved (length pre) 1) us)) }
{}
