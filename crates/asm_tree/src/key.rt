//! Keywords and their spellings.

ghost use Rattle.std.specs.Prelude.{◌≡◌, ◌≢◌, MatchOption};
ghost use Rattle.asm_tree.specs.Names.{key_bytes};

/// The keywords of the language, each named as it is spelled, with a capital first letter. A keyword
/// is no name.
#[derive(Clone, Copy, Debug, PartialEq, Eq)]
pub enum Key {
    Machine,
    Domain,
    To,
    Controlled,
    Input,
    Output,
    Static,
    Legal,
    Rule,
    Skip,
    If,
    Then,
    Else,
    End,
    Par,
    Forall,
    In,
    With,
    Do,
    Choose,
    Let,
    Not,
    Min,
    Max,
    Cond,
    And,
    Or,
}

// Each keyword once.
const KEYS: [Key; 27] = [
    Key::Machine,
    Key::Domain,
    Key::To,
    Key::Controlled,
    Key::Input,
    Key::Output,
    Key::Static,
    Key::Legal,
    Key::Rule,
    Key::Skip,
    Key::If,
    Key::Then,
    Key::Else,
    Key::End,
    Key::Par,
    Key::Forall,
    Key::In,
    Key::With,
    Key::Do,
    Key::Choose,
    Key::Let,
    Key::Not,
    Key::Min,
    Key::Max,
    Key::Cond,
    Key::And,
    Key::Or,
];

/// The spelling of a keyword, in bytes. Takes no memory.
pub fn key_text(key: Key) -> &'static [u8]
    ensures { result.now ≡ key_bytes key }
{
    match key {
        Key::Machine => b"machine",
        Key::Domain => b"domain",
        Key::To => b"to",
        Key::Controlled => b"controlled",
        Key::Input => b"input",
        Key::Output => b"output",
        Key::Static => b"static",
        Key::Legal => b"legal",
        Key::Rule => b"rule",
        Key::Skip => b"skip",
        Key::If => b"if",
        Key::Then => b"then",
        Key::Else => b"else",
        Key::End => b"end",
        Key::Par => b"par",
        Key::Forall => b"forall",
        Key::In => b"in",
        Key::With => b"with",
        Key::Do => b"do",
        Key::Choose => b"choose",
        Key::Let => b"let",
        Key::Not => b"not",
        Key::Min => b"min",
        Key::Max => b"max",
        Key::Cond => b"cond",
        Key::And => b"and",
        Key::Or => b"or",
    }
}

/// The keyword that is spelled so, or `None` where no keyword is. Takes no memory.
pub fn key_of(word: &[u8]) -> Option<Key>
    ensures { MatchOption result ((k : Key) → key_bytes k ≢ word.now) (λ k. key_bytes k ≡ word.now) }
{
    for key in &KEYS {
        if key_text(*key) == word {
            return Some(*key);
        }
    }
    None
}
