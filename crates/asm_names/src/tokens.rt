//! How many tokens the text of a declaration has.

ghost use Rattle.std.specs.Prelude.{◌≡◌, ◌^◌, ◌<◌, ◌≤◌};
ghost use Rattle.asm_names.specs.Places.{const_tokens, consts_tokens, decl_tokens, names_tokens, number_tokens, table_tokens};

use asm_tree::{Const, Decl, Kind, Name};

/// A bound is one token, or two behind a minus.
pub(crate) fn tokens_of_bound(bound: i64) -> u32
    ensures { result ≡ number_tokens bound }
{
    if bound < 0 { 2 } else { 1 }
}

/// How many tokens a constant is.
pub(crate) fn tokens_of_const(constant: &Const) -> u32
    ensures count { result ≡ const_tokens constant.now }
    ensures small { result ≤ 2 }
{
    match constant {
        Const::Number(value) => tokens_of_bound(*value),
        Const::Named(_) => 1,
    }
}

// Names in parentheses, if there are any.
fn tokens_of_names(names: &[Name]) -> u32
    requires { names_tokens names.now < 2 ^ 31 }
    ensures { result ≡ names_tokens names.now }
{
    if names.is_empty() {
        return 0;
    }
    1 + 2 * names.len() as u32
}

// Constants, each with the comma or the bracket after it.
fn tokens_of_consts(consts: &[Const]) -> u32
    requires { consts_tokens consts.now < 2 ^ 31 }
    ensures { result ≡ consts_tokens consts.now }
{
    let mut count = 0;
    for constant in consts {
        count += tokens_of_const(constant) + 1;
    }
    count
}

// A table in brackets behind an equals sign, which just a static function has.
fn tokens_of_table(kind: Kind, table: &[Const]) -> u32
    requires { table_tokens kind table.now < 2 ^ 31 }
    ensures { result ≡ table_tokens kind table.now }
{
    match kind {
        Kind::Static => 2 + tokens_of_consts(table),
        Kind::Controlled | Kind::Input | Kind::Output => 0,
    }
}

/// How many tokens the text of a declaration has: fewer than 2,147,483,648.
pub fn decl_tokens(decl: &Decl) -> u32
    requires { decl_tokens decl.now < 2 ^ 31 }
    ensures { result ≡ decl_tokens decl.now }
{
    match decl {
        Decl::Range { lo, hi, .. } => 3 + tokens_of_bound(*lo) + 1 + tokens_of_bound(*hi),
        Decl::Names { items, .. } => 4 + 2 * items.len() as u32,
        Decl::Fun {
            kind,
            args,
            table,
            ..
        } => 2 + tokens_of_names(args.as_slice()) + 2 + tokens_of_table(*kind, table.as_slice()),
    }
}
