//! Reading a whole program from its tokens.

ghost use Rattle.std.specs.Prelude.{◌≡◌, ◌<◌, ◌^◌, ◌+◌, ◌-◌, length, IfOk, IfErr};
ghost use Rattle.asm_tree.specs.Programs.{Parts, IsProgram};
ghost use Rattle.asm_tokens.specs.Tokens.{kinds};
ghost use Rattle.asm_rules.specs.Reading.{Reads};
ghost use Rattle.asm_syntax.specs.Whole.{Answers, RefusedAt, end_at};
ghost use Rattle.asm_syntax.specs.Reading as spec;
ghost use Rattle.asm_syntax.specs.Grammar.{program_text};

use crate::decl::declarations;
use asm_rules::rule::rule;
use asm_rules::term::term;
use asm_rules::{Cursor, ReadEnd, Stop};
use asm_tokens::Token;
use asm_tree::{Key, MAX_DEPTH, Program, Term};
use sqlite_items::Boxed;
use std::alloc::Global;
use thiserror::Error;

/// Why a list of tokens is no program. A token's number is its place in the list, from 1; it is the number of tokens
/// plus 1 where the list ends too early. Proved is that an end other than `NoMemory` comes only where no program has
/// these tokens. Which of the two comes, and at which token, is the fault that reading from left to right, one form of
/// the grammar after the other, meets first.
#[derive(Clone, Copy, Debug, PartialEq, Eq, Error)]
pub enum ParseEnd {
    /// Refusal 103: no program goes on with this token.
    #[error("token {token}: no program goes on with this token")]
    Unexpected { token: u32 },
    /// Refusal 104: the term or rule that begins at this token has parts that would be deeper than 48.
    #[error("token {token}: a term or rule is deeper than 48 here")]
    TooDeep { token: u32 },
    /// Memory ran out.
    #[error("out of memory")]
    NoMemory,
}

/// The number of the token at which so many of all are left.
fn number_of(total: usize, left: usize) -> u32
    requires { total < 2 ^ 31 }
    ensures { result ≡ (total - left) + 1 }
{
    total.saturating_sub(left) as u32 + 1
}

/// The end of reading so many tokens in all that stopped here.
fn end_of(total: usize, stop: Stop) -> ParseEnd
    requires { total < 2 ^ 31 }
    ensures { result ≡ end_at total stop }
{
    match stop {
        Stop::Unexpected(left) => ParseEnd::Unexpected {
            token: number_of(total, left),
        },
        Stop::TooDeep(left) => ParseEnd::TooDeep {
            token: number_of(total, left),
        },
    }
}

/// The legal term, if `legal` comes next.
#[tactic(auto, unfolding(asm_rules::specs::Reading::and_then, crate::specs::Reading::legal))]
fn legal(alloc: Global, cursor: &mut Cursor<'_>) -> Result<Option<Boxed<Term>>, ReadEnd>
    ensures { Reads (spec.legal cursor.old) result cursor.new }
{
    if !cursor.eat_key(Key::Legal) {
        return Ok(None);
    }
    Ok(Some(Boxed::new(alloc, term(alloc, cursor, MAX_DEPTH)?)?))
}

/// A program and nothing after it.
#[tactic(auto, unfolding(asm_rules::specs::Reading::and_then, crate::specs::Reading::program))]
fn program(alloc: Global, cursor: &mut Cursor<'_>) -> Result<Program, ReadEnd>
    ensures { Reads (spec.program cursor.old) result cursor.new }
{
    cursor.key(Key::Machine)?;
    let name = cursor.name(alloc)?;
    let decls = declarations(alloc, cursor)?;
    let legal = legal(alloc, cursor)?;
    cursor.key(Key::Rule)?;
    let rule = Boxed::new(alloc, rule(alloc, cursor, MAX_DEPTH)?)?;
    cursor.end()?;
    match Program::new(name, decls, legal, rule) {
        Some(program) => Ok(program),
        None => Err(cursor.refuse().into()),
    }
}

/// The one program whose tokens these are, of which there are fewer than 2^31:
///
/// ```text
/// program = machine NAME decl* [ legal term ] rule one
/// decl    = domain NAME `=` bound to bound
///         | domain NAME `=` `{` NAME ( `,` NAME )* `}`
///         | ( controlled | input | output ) NAME [ names ] `:` NAME
///         | static NAME [ names ] `:` NAME `=` `[` const ( `,` const )* `]`
/// names   = `(` NAME ( `,` NAME )* `)`
/// bound   = [ `-` ] NUMBER
/// const   = bound | NAME
/// one     = skip
///         | NAME [ terms ] `:=` term
///         | if term then one [ else one ] end
///         | par one ( `;` one )* end
///         | forall NAME in NAME [ with term ] do one end
///         | choose NAME in NAME with term do one [ else one ] end
///         | let NAME `=` term in one end
/// term    = NUMBER | NAME [ terms ] | `(` term op term `)` | not term
///         | min `(` term `,` term `)` | max `(` term `,` term `)`
///         | cond `(` term `,` term `,` term `)`
/// terms   = `(` term ( `,` term )* `)`
/// op      = `+` | `-` | `=` | `!=` | `<` | `<=` | `>` | `>=` | and | or
/// ```
///
/// No number after a `-` is 0. The rule and the legal term are at most 48 deep: `skip`, a number and a name without
/// terms have depth 1, and all others 1 more than the deepest of their parts.
pub fn parse(alloc: Global, list: &[Token]) -> Result<Program, ParseEnd>
    requires { length list.now < 2 ^ 31 }
    // What is parsed stands there.
    ensures found { IfOk result (λ p. IsProgram p × (kinds list.now ≡ program_text p)) }
    // What stands there is parsed, unless memory runs out.
    ensures only { (p : Parts) → IsProgram p → kinds list.now ≡ program_text p → Answers result p }
    // A refusal is the fault that reading from left to right meets first, and stands at its token.
    ensures refused { IfErr result (λ end. RefusedAt (kinds list.now) end) }
{
    let mut cursor = Cursor::new(list);
    match program(alloc, &mut cursor) {
        Ok(found) => Ok(found),
        Err(ReadEnd::Stopped(stop)) => Err(end_of(list.len(), stop)),
        Err(ReadEnd::NoMemory) => Err(ParseEnd::NoMemory),
    }
}
