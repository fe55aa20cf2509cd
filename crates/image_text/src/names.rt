//! That the names of a program are names, as their types make sure. These functions read the names and do nothing.

ghost use Rattle.std.specs.List.{AllByRecursion};
ghost use Rattle.asm_tree.specs.Names.{IsName};
ghost use Rattle.image_text.specs.Report.{AreNamed};

use asm_names::{Domain, Fun, Resolved};
use asm_tree::Name;

fn are_names(names: &[Name])
    ensures { AllByRecursion IsName names.now }
{
    for name in names {
        let _ = name.bytes();
    }
}

fn functions_are_named(functions: &[Fun])
    ensures { AllByRecursion (λ fun. IsName fun.name) functions.now }
{
    for function in functions {
        let _ = function.name.bytes();
    }
}

fn enumerators_are_named(domains: &[Domain])
    ensures { AllByRecursion (λ domain. AllByRecursion IsName domain.items) domains.now }
{
    for domain in domains {
        are_names(domain.items.as_slice());
    }
}

/// The names of the machine, of the functions and of the enumerators are names.
pub(crate) fn program_is_named(program: &Resolved)
    ensures { AreNamed program.now }
{
    let _ = program.name.bytes();
    functions_are_named(program.funs.as_slice());
    enumerators_are_named(program.domains.as_slice());
}
