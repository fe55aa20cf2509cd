//! Which loop binds a binder.

ghost use Rattle.std.specs.Prelude.{◌≡◌, ◌<◌, Some};
ghost use Rattle.instr_select.specs.Binders as spec;

use asm_names::{Binder, Resolved};
use state_space::{Range, range_of};

/// The number of the domain whose elements a binder stands for.
fn element_domain(binder: Binder) -> Option<u32>
    ensures { result ≡ spec.element_domain (Some binder) }
{
    match binder {
        Binder::Element { domain } => Some(domain),
        Binder::Local => None,
    }
}

/// The number of the domain over which a `forall` or a `choose` of the program's rule binds the binder; none where a `let`
/// binds it. Takes constant time.
#[tactic(auto, unfolding(crate::specs::Binders::binder_domain))]
pub fn binder_domain(program: &Resolved, binder: u32) -> Option<u32>
    requires { binder < program.now.binders }
    ensures { result ≡ spec.binder_domain program.now.rule binder }
{
    element_domain(program.binder(binder))
}

/// That domain's values.
pub fn binder_range(program: &Resolved, binder: u32) -> Option<Range>
    requires { binder < program.now.binders }
    ensures { result ≡ spec.binder_range program.now binder }
{
    match binder_domain(program, binder) {
        Some(domain) => Some(range_of(program.domains.as_slice(), domain)),
        None => None,
    }
}
