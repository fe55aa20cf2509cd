//! Programs whose names are replaced by numbers.

ghost use Rattle.std.specs.Prelude.{◌≡◌, [], length};
ghost use Rattle.std.specs.Option.{option_map};
ghost use Rattle.std.specs.Coded.{Coded-set};
ghost use Rattle.std.proofs.Props.{props};
ghost use Rattle.asm_names.specs.Binders.{kinds_in};
ghost use Rattle.asm_names.specs.Places.{rule_binders};
ghost use Rattle.asm_names.specs.Programs.{names_of, program_faults, resolved_domains, resolved_funs};
ghost use Rattle.asm_names.specs.Rules.{resolved_rule};
ghost use Rattle.asm_names.specs.Terms.{resolved_term};

use crate::binders::Binder;
use crate::law::resolved_programs_are_well_formed;
use crate::resolved_rule::ResolvedRule;
use crate::resolved_term::ResolvedTerm;
use asm_tree::{Kind, Name, Program};
use sqlite_items::{Boxed, Items};

/// A domain: `size` whole numbers from `lo` on. An enumerator of a list domain is its index there, so `lo` is then 0.
#[derive(Drop)]
pub struct Domain {
    /// How many values there are: 1 to 65,536.
    pub size: u32,
    /// The least value.
    pub lo: i32,
    /// The enumerators of a list domain. Empty for a range.
    pub items: Items<Name>,
}

/// A function from domains to a domain.
#[derive(Drop)]
pub struct Fun {
    /// Who may change the function.
    pub kind: Kind,
    /// The name that the text gives it.
    pub name: Name,
    /// The numbers of the arguments' domains, at most 3.
    pub args: Items<u32>,
    /// The number of the values' domain.
    pub codomain: u32,
    /// The values of a static function, in the order of the text. Empty for every other.
    pub table: Items<i64>,
}

/// The whole numbers from `lo` to `hi`.
#[derive(Clone, Copy, Debug, PartialEq, Eq)]
pub struct Interval {
    /// The least.
    pub lo: i64,
    /// The greatest.
    pub hi: i64,
}

/// A program whose names are replaced by numbers. Domains, functions and binders are each numbered from 0 in the order of
/// the text.
#[derive(Drop)]
pub struct Resolved {
    /// The program that was resolved, in memory of its own.
    pub source: Program,
    /// The machine's name.
    pub name: Name,
    /// The domains, by number.
    pub domains: Items<Domain>,
    /// The functions, by number.
    pub funs: Items<Fun>,
    /// How many binders the rule has.
    pub binders: u32,
    /// What each binder is, by number.
    pub binder_table: Items<Binder>,
    /// An interval for each binder, from 0 to 0 at first: room for what is found of their values without more memory.
    pub intervals: Items<Interval>,
    /// The term that says which states are legal, where there is one.
    pub legal: Option<Boxed<ResolvedTerm>>,
    /// The rule of one step.
    pub rule: Boxed<ResolvedRule>,
    /// The source has no fault of its names and sorts.
    pub ghost faultless: { program_faults source ≡ [] } by { Prim.hlevel props },
    /// The name is the source's.
    pub ghost same_name: { name ≡ source.name },
    /// The domains are those that the source declares.
    pub ghost domains_resolved: { domains ≡ resolved_domains source.decls } by { Coded-set domains-code _ _ },
    /// The functions are those that the source declares.
    pub ghost funs_resolved: { funs ≡ resolved_funs [] source.decls } by { Coded-set funs-code _ _ },
    /// Every binder of the source's rule is counted.
    pub ghost all_binders: { binders ≡ rule_binders source.rule },
    /// The table has the binders of the rule in the order of the text.
    pub ghost all_listed: { binder_table ≡ kinds_in rule } by { Coded-set binder_table-code _ _ },
    /// Each binder has an interval.
    pub ghost one_interval_each: { length intervals ≡ binders },
    /// The legal term is the source's, in numbers.
    pub ghost legal_resolved: { legal ≡ option_map (resolved_term (names_of source)) source.legal } by { Coded-set legal-code _ _ },
    /// The rule is the source's, in numbers.
    pub ghost rule_resolved: { rule ≡ resolved_rule source.rule (names_of source) 0 } by { Coded-set rule-code _ _ },
}

impl Resolved {
    ghost use Rattle.std.specs.Prelude.{◌≡◌, ◌<◌, ℕ, length, Some};
    ghost use Rattle.asm_tree.specs.Programs.{IsProgram};
    ghost use Rattle.asm_names.specs.Binders.{binder_of};
    ghost use Rattle.asm_names.specs.declared.binders.Binder.TheVariants.{Element};
    ghost use Rattle.asm_names.specs.Resolving.{Resolves};
    ghost use Rattle.asm_names.specs.WellFormed.{IsWellFormed};

    /// A resolved program comes from one that has a text and no fault of its names. The function does nothing; its contract
    /// is the law.
    pub fn comes_from_faultless(&self)
        ensures program { IsProgram self.now.source }
        ensures faultless { program_faults self.now.source ≡ [] }
        ensures resolves { Resolves self.now.source self.now }
        ensures intervals { length self.now.intervals ≡ self.now.binders }
        ensures well_formed { IsWellFormed self.now }
    {
        resolved_programs_are_well_formed();
        let _ = self.source.rule();
    }

    /// What the binder with this number is: the element of a domain, which is there, or the value of a `let`. Takes
    /// constant time.
    pub fn binder(&self, number: u32) -> Binder
        requires { number < self.now.binders }
        ensures bound { binder_of self.now.rule number ≡ Some result }
        ensures inside { (domain : ℕ) → result ≡ Element domain → domain < length self.now.domains }
    {
        self.comes_from_faultless();
        self.binder_table.as_slice()[number as usize]
    }
}
