//! All tables of a program.

ghost use Rattle.std.specs.Prelude.{◌≡◌, ◌++◌, IfOk, OnOk, map};
ghost use Rattle.std.specs.List.{AllByRecursion};
ghost use Rattle.state_space.specs.Locations.{signature_of};
ghost use Rattle.state_space.specs.Sizes.{IsSized};
ghost use Rattle.asm_ranges.specs.Ranges.{IfStatic, TableFits};
ghost use Rattle.rom_tables.specs.Tables.{fun_row, own_row, rows, table_indices, table_number};

use crate::row::row;
use asm_names::{Domain, Fun};
use asm_ranges::Checked;
use asm_tree::Kind;
use rv_encode::Words;
use state_space::resolved_functions_are_sized;
use std::alloc::{AllocError, Global};

/// The words of all static tables of a program, in the order of the declarations and of the padded index in each. A value
/// stands as its index in the domain of the values, and the gaps hold index 0.
///
/// # Errors
///
/// `AllocError` where there is no memory for the words.
pub fn table_words(alloc: Global, checked: &Checked) -> Result<Words, AllocError>
    ensures { IfOk result (λ words. words ≡ map table_number (table_indices checked.now)) }
{
    let program = checked.resolved();
    resolved_functions_are_sized(program);
    let mut words = Words::new(alloc);
    append(
        program.domains.as_slice(),
        program.funs.as_slice(),
        &mut words,
    )?;
    Ok(words)
}

/// Appends the words of the tables of functions. An error is want of memory; a first part of them was then appended.
fn append(domains: &[Domain], funs: &[Fun], out: &mut Words) -> Result<(), AllocError>
    requires sized { AllByRecursion IsSized (map (signature_of domains.now) funs.now) }
    requires fits { AllByRecursion (λ fun. IfStatic fun.kind (TableFits (signature_of domains.now fun) fun.table)) funs.now }
    ensures { OnOk result (out.new ≡ out.old ++ map table_number (rows domains.now funs.now)) }
{
    let Some((fun, rest)) = funs.split_first() else {
        return Ok(());
    };
    own(domains, fun, out)?;
    append(domains, rest, out)
}

/// Appends the words of a function's table, if it is a static one. An error is want of memory; a first part of them was then
/// appended.
fn own(domains: &[Domain], fun: &Fun, out: &mut Words) -> Result<(), AllocError>
    requires sized { IsSized (signature_of domains.now fun.now) }
    requires fits { IfStatic fun.now.kind (TableFits (signature_of domains.now fun.now) fun.now.table) }
    ensures { OnOk result (out.new ≡ out.old ++ map table_number (own_row fun.now.kind (fun_row domains.now fun.now))) }
{
    match fun.kind {
        Kind::Static => row(domains, fun, out),
        Kind::Controlled | Kind::Output | Kind::Input => Ok(()),
    }
}
