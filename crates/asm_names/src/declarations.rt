//! Declarations.

ghost use Rattle.std.specs.Prelude.{◌≡◌, ℕ, ◌+◌, ◌*◌, ◌^◌, ◌<◌, ◌≤◌, ◌++◌, ◌||◌, ◌≤ℤ◌, pos, negsuc, int_lt, nat_lt, length, map, min, None, Some, IfOk};
ghost use Rattle.std.specs.Option.{option_map};
ghost use Rattle.asm_names.specs.declared.fault.NameFault.TheVariants as causes;
ghost use Rattle.asm_names.specs.declared.sort.Need.TheVariants as needs;
ghost use Rattle.asm_names.specs.DeclFaults as spec;
ghost use Rattle.asm_names.specs.Faults.{Finds, fault};
ghost use Rattle.asm_names.specs.Meanings.{meaning_of, size_of_domain};
ghost use Rattle.asm_names.specs.Programs.{resolved_const};
ghost use Rattle.asm_names.specs.Table.{scope};

use crate::fault::{NameEnd, NameFault, PlacedFault};
use crate::program::{Domain, Fun};
use crate::sort::{Need, Sort};
use crate::table::{Entry, Table};
use crate::term::check_sort;
use crate::tokens::{tokens_of_bound, tokens_of_const};
use asm_tree::{Const, Consts, Decl, Kind, Name, Names};
use sqlite_items::Items;
use std::alloc::{AllocError, Global};

// The most values of a domain, and the most arguments of a function.
const MAX_VALUES: usize = 65536;

const MAX_ARGUMENTS: usize = 3;

// The least and the greatest bound of a range.
const LEAST_BOUND: i64 = -1048576;

const GREATEST_BOUND: i64 = 1048576;

/// The declarations that are read so far.
#[derive(Drop)]
pub struct Declarations {
    /// Their names.
    pub table: Table,
    /// The number of the next token.
    pub place: u32,
    /// The domains, by number.
    pub domains: Items<Domain>,
    /// The functions, by number.
    pub funs: Items<Fun>,
}

// Equal names.
fn copy_names(alloc: Global, names: &[Name]) -> Result<Names, AllocError>
    ensures { IfOk result (λ copies. copies ≡ names.now) }
{
    let mut copies = Items::new(alloc);
    for name in names {
        copies.push(name.copy(alloc)?)?;
    }
    Ok(copies)
}

// Whether a bound is too far from 0.
fn is_far(bound: i64) -> bool
    ensures { result ≡ spec.is_far bound }
{
    bound < LEAST_BOUND || bound > GREATEST_BOUND
}

// A range must have values, and not too many of them.
#[tactic(auto, using(crate::proofs::Firsts::first_rules), unfolding(crate::specs::Faults::first_end))]
fn check_range(lo: i64, hi: i64, token: u32) -> Result<(), PlacedFault>
    ensures { Finds (fault causes.Empty token (int_lt hi lo) ++ fault causes.TooLarge token (nat_lt 65536 (spec.range_size lo hi) || (spec.is_far lo || spec.is_far hi))) result
        (λ _. (lo ≤ℤ hi) × (negsuc 1048575 ≤ℤ lo) × (hi ≤ℤ pos 1048576) × (spec.range_size lo hi ≤ 65536)) }
{
    if hi < lo {
        return Err(PlacedFault::at(token, NameFault::Empty));
    }
    if is_far(lo) || is_far(hi) || hi - lo >= 65536 {
        return Err(PlacedFault::at(token, NameFault::TooLarge));
    }
    Ok(())
}

// How many numbers there are from `lo` to `hi`.
fn size_of_range(lo: i64, hi: i64) -> u32
    requires order { lo ≤ℤ hi }
    requires low { negsuc 1048575 ≤ℤ lo }
    requires high { hi ≤ℤ pos 1048576 }
    ensures { result ≡ spec.range_size lo hi }
{
    (hi - lo) as u32 + 1
}

// A constant of a table whose values have this sort.
#[tactic(auto, unfolding(crate::specs::Faults::first_end))]
fn find_const(table: &Table, constant: &Const, values: Sort, token: u32) -> Result<i64, PlacedFault>
    ensures { Finds (spec.const_faults (scope table.now) (needs.Only values) constant.now token) result
        (λ value. value ≡ resolved_const (scope table.now) constant.now) }
{
    match constant {
        Const::Number(value) => {
            check_sort(Need::Only(values), Some(Sort::Int), token)?;
            Ok(*value)
        }
        Const::Named(name) => match table.find(name) {
            Some(Entry::Enumerator { domain, index }) => {
                check_sort(Need::Only(values), Some(Sort::List(*domain)), token)?;
                Ok(i64::from(*index))
            }
            _ => Err(PlacedFault::at(token, NameFault::Unknown)),
        },
    }
}

// The product of the sizes of domains, or the greatest number of its type where that is less. `None` where a name is
// not one of a domain.
fn product_of_sizes(table: &Table, names: &[Name]) -> Option<u64>
    ensures { result ≡ option_map (λ n. min n 18446744073709551615) (spec.times_sizes 1 (map (λ name. size_of_domain (meaning_of (scope table.now) name)) names.now)) }
{
    let mut product = 1u64;
    for name in names {
        let Some(Entry::Domain { size, .. }) = table.find(name) else {
            return None;
        };
        product = product.saturating_mul(u64::from(*size));
    }
    Some(product)
}

// A static function has as many constants as tuples of arguments.
#[tactic(auto, unfolding(crate::specs::Faults::first_end))]
fn check_table(
    table: &Table,
    kind: Kind,
    args: &[Name],
    count: usize,
    token: u32,
) -> Result<(), PlacedFault>
    requires { kind ≡ Kind.Static → count < 2 ^ 32 }
    ensures { Finds (spec.table_faults kind (spec.times_sizes 1 (map (λ name. size_of_domain (meaning_of (scope table.now) name)) args.now)) count token) result
        (λ _. Unit {0}) }
{
    if kind != Kind::Static {
        return Ok(());
    }
    let Some(product) = product_of_sizes(table, args) else {
        return Ok(());
    };
    if product != count as u64 {
        return Err(PlacedFault::at(token, NameFault::Count));
    }
    Ok(())
}

/// What stands behind a function's name, in numbers.
#[derive(Drop)]
pub struct Signature {
    pub numbers: Items<u32>,
    pub sorts: Items<Sort>,
    pub codomain: u32,
    pub values: Sort,
    pub table: Items<i64>,
}

impl Declarations {
    ghost use Rattle.std.specs.Prelude.{◌≡◌, ℕ, ◌+◌, ◌*◌, ◌^◌, ◌<◌, ◌≤◌, ◌++◌, ◌∷◌, [], length, map, None, Some, OnErr, OnOk};
    ghost use Rattle.asm_tree.specs.declared.decl.Decl.TheVariants as decls;
    ghost use Rattle.asm_names.specs.declared.sort.Need.TheVariants as needs;
    ghost use Rattle.asm_names.specs.DeclFaults.{consts_faults, constants_of, domains_faults, items_faults, items_from, signature_faults};
    ghost use Rattle.asm_names.specs.Declares.{AddsFunction, IsNumbered, IsSignature, JudgesDecl};
    ghost use Rattle.asm_names.specs.Faults.{Judges};
    ghost use Rattle.asm_names.specs.Meanings.{Function, functions_in, meaning_of, number_of, sort_of_domain};
    ghost use Rattle.asm_names.specs.Places.{consts_tokens, decl_tokens, names_tokens, table_tokens};
    ghost use Rattle.asm_names.specs.Programs.{resolved_const};
    ghost use Rattle.asm_names.specs.Table.{scope};

    // The names of a list domain, the first of which is the next token.
    #[tactic(auto, using(crate::proofs::Firsts::first_rules))]
    fn items(&mut self, alloc: Global, domain: u32, items: &[Name]) -> Result<(), NameEnd>
        requires few { length items.now ≤ 65536 }
        requires room { self.old.place + 2 * length items.now < 2 ^ 32 }
        ensures { Judges (items_faults (scope self.old.table) domain 0 items.now self.old.place) result
            (λ _. (scope self.new.table ≡ scope self.old.table ++ items_from domain 0 items.now)
            × (self.new.place ≡ self.old.place + 2 * length items.now)
            × (self.new.domains ≡ self.old.domains) × (self.new.funs ≡ self.old.funs)) }
    {
        for (index, item) in items.iter().enumerate() {
            self.table.check_new(item, self.place)?;
            let entry = Entry::Enumerator {
                domain,
                index: index as u32,
            };
            self.table.add(alloc, item, entry)?;
            self.place += 2;
        }
        Ok(())
    }

    /// `domain NAME = { NAME , NAME }`
    #[tactic(auto, using(crate::proofs::Firsts::first_rules), unfolding(crate::specs::Faults::first_end))]
    pub fn list(&mut self, alloc: Global, name: &Name, items: &Names) -> Result<(), NameEnd>
        requires numbered { IsNumbered self.old }
        requires room { self.old.place + decl_tokens (decls.Names name.now items.now) < 2 ^ 32 }
        ensures { JudgesDecl (decls.Names name.now items.now) self.old result self.new }
    {
        let token = self.place + 1;
        self.table.check_new(name, token)?;
        if items.len() > MAX_VALUES {
            return Err(NameEnd::at(token, NameFault::TooLarge));
        }
        let number = self.domains.len() as u32;
        let size = items.len() as u32;
        let entry = Entry::Domain {
            number,
            size,
            sort: Sort::List(number),
        };
        self.table.add(alloc, name, entry)?;
        self.place += 4;
        self.items(alloc, number, items.as_slice())?;
        let items = copy_names(alloc, items.as_slice())?;
        self.domains.push(Domain { size, lo: 0, items })?;
        Ok(())
    }

    /// `domain NAME = bound to bound`
    #[tactic(auto, using(crate::proofs::Firsts::first_rules), unfolding(crate::specs::Faults::first_end))]
    pub fn range(&mut self, alloc: Global, name: &Name, lo: i64, hi: i64) -> Result<(), NameEnd>
        requires numbered { IsNumbered self.old }
        requires room { self.old.place + decl_tokens (decls.Range name.now lo hi) < 2 ^ 32 }
        ensures { JudgesDecl (decls.Range name.now lo hi) self.old result self.new }
    {
        let token = self.place + 1;
        self.table.check_new(name, token)?;
        check_range(lo, hi, token)?;
        let number = self.domains.len() as u32;
        let size = size_of_range(lo, hi);
        let entry = Entry::Domain {
            number,
            size,
            sort: Sort::Int,
        };
        self.table.add(alloc, name, entry)?;
        self.place += 3 + tokens_of_bound(lo) + 1 + tokens_of_bound(hi);
        let items = Items::new(alloc);
        self.domains.push(Domain {
            size,
            lo: lo as i32,
            items,
        })?;
        Ok(())
    }

    // The numbers and the sorts of domains in parentheses.
    #[tactic(auto, using(crate::proofs::Firsts::first_rules))]
    fn arguments(
        &mut self,
        alloc: Global,
        args: &[Name],
    ) -> Result<(Items<u32>, Items<Sort>), NameEnd>
        requires { self.old.place + names_tokens args.now < 2 ^ 32 }
        ensures { Judges (domains_faults (scope self.old.table) args.now (self.old.place + 1)) result
            (λ found. (found.0 ≡ map (λ arg. number_of (meaning_of (scope self.old.table) arg)) args.now)
            × (map Some found.1 ≡ map (λ arg. sort_of_domain (meaning_of (scope self.old.table) arg)) args.now)
            × (self.new ≡ record self.old { place = self.old.place + names_tokens args.now })) }
    {
        let mut numbers = Items::new(alloc);
        let mut sorts = Items::new(alloc);
        if !args.is_empty() {
            self.place += 1;
            for arg in args {
                let (number, sort) = self.table.find_domain(arg, self.place)?;
                numbers.push(number)?;
                sorts.push(sort)?;
                self.place += 2;
            }
        }
        Ok((numbers, sorts))
    }

    // The constants of a table, the first of which is the next token.
    #[tactic(auto, using(crate::proofs::Firsts::first_rules))]
    fn constants(
        &mut self,
        alloc: Global,
        values: Sort,
        table: &[Const],
    ) -> Result<Items<i64>, NameEnd>
        requires { self.old.place + consts_tokens table.now < 2 ^ 32 }
        ensures { Judges (consts_faults (scope self.old.table) (needs.Only values) table.now self.old.place) result
            (λ found. (found ≡ map (resolved_const (scope self.old.table)) table.now)
            × (self.new ≡ record self.old { place = self.old.place + consts_tokens table.now })) }
    {
        let mut found = Items::new(alloc);
        for constant in table {
            found.push(find_const(&self.table, constant, values, self.place)?)?;
            self.place += tokens_of_const(constant) + 1;
        }
        Ok(found)
    }

    // `= [ const , const ]` behind a static function.
    #[tactic(auto, using(crate::proofs::Firsts::first_rules))]
    fn static_table(
        &mut self,
        alloc: Global,
        kind: Kind,
        values: Sort,
        table: &Consts,
    ) -> Result<Items<i64>, NameEnd>
        requires { self.old.place + table_tokens kind table.now < 2 ^ 32 }
        ensures { Judges (consts_faults (scope self.old.table) (needs.Only values) (constants_of kind table.now) (self.old.place + 2)) result
            (λ found. (found ≡ map (resolved_const (scope self.old.table)) (constants_of kind table.now))
            × (self.new ≡ record self.old { place = self.old.place + table_tokens kind table.now })) }
    {
        match kind {
            Kind::Static => {
                self.place += 2;
                self.constants(alloc, values, table.as_slice())
            }
            Kind::Controlled | Kind::Input | Kind::Output => Ok(Items::new(alloc)),
        }
    }

    // What stands behind a function's name.
    #[tactic(auto, using(crate::proofs::Firsts::first_rules))]
    fn signature(
        &mut self,
        alloc: Global,
        kind: Kind,
        args: &Names,
        codomain: &Name,
        table: &Consts,
    ) -> Result<Signature, NameEnd>
        requires { self.old.place + names_tokens args.now + 2 + table_tokens kind table.now < 2 ^ 32 }
        ensures { Judges (signature_faults (scope self.old.table) kind args.now codomain.now table.now self.old.place) result
            (λ s. IsSignature (scope self.old.table) kind args.now codomain.now table.now s
            × (self.new ≡ record self.old { place = self.old.place + names_tokens args.now + 2 + table_tokens kind table.now })) }
    {
        let (numbers, sorts) = self.arguments(alloc, args.as_slice())?;
        self.place += 1;
        let (codomain, values) = self.table.find_domain(codomain, self.place)?;
        self.place += 1;
        let table = self.static_table(alloc, kind, values, table)?;
        Ok(Signature {
            numbers,
            sorts,
            codomain,
            values,
            table,
        })
    }

    // Puts a function behind the others.
    fn add_function(
        &mut self,
        alloc: Global,
        kind: Kind,
        name: &Name,
        signature: Signature,
    ) -> Result<(), NameEnd>
        requires new { meaning_of (scope self.old.table) name.now ≡ None }
        requires numbered { functions_in (scope self.old.table) ≡ length self.old.funs }
        requires room { length self.old.funs < 2 ^ 32 }
        ensures added { OnOk result (AddsFunction kind name.now signature self.old self.new) }
        ensures memory { OnErr result (result ≡ Err NameEnd.NoMemory) }
    {
        let Signature {
            numbers,
            sorts,
            codomain,
            values,
            table,
        } = signature;
        let number = self.funs.len() as u32;
        let entry = Entry::Function {
            number,
            kind,
            args: sorts,
            values,
        };
        self.table.add(alloc, name, entry)?;
        self.funs.push(Fun {
            kind,
            name: name.copy(alloc)?,
            args: numbers,
            codomain,
            table,
        })?;
        Ok(())
    }

    /// `kind NAME ( NAME , NAME ) : NAME = [ const , const ]`
    #[tactic(auto, using(crate::proofs::Firsts::first_rules), unfolding(crate::specs::Faults::first_end))]
    pub fn function(
        &mut self,
        alloc: Global,
        kind: Kind,
        name: &Name,
        args: &Names,
        codomain: &Name,
        table: &Consts,
    ) -> Result<(), NameEnd>
        requires numbered { IsNumbered self.old }
        requires room { self.old.place + decl_tokens (decls.Fun kind name.now args.now codomain.now table.now) < 2 ^ 32 }
        ensures { JudgesDecl (decls.Fun kind name.now args.now codomain.now table.now) self.old result self.new }
    {
        let token = self.place + 1;
        self.table.check_new(name, token)?;
        check_table(&self.table, kind, args.as_slice(), table.len(), token)?;
        if args.len() > MAX_ARGUMENTS {
            return Err(NameEnd::at(token, NameFault::TooManyArguments));
        }
        self.place += 2;
        let signature = self.signature(alloc, kind, args, codomain, table)?;
        self.add_function(alloc, kind, name, signature)
    }

    /// A declaration behind those before it, the first token of which is the next.
    pub fn declaration(&mut self, alloc: Global, decl: &Decl) -> Result<(), NameEnd>
        requires numbered { IsNumbered self.old }
        requires room { self.old.place + decl_tokens decl.now < 2 ^ 32 }
        ensures judged { JudgesDecl decl.now self.old result self.new }
    {
        match decl {
            Decl::Range { name, lo, hi } => self.range(alloc, name, *lo, *hi),
            Decl::Names { name, items } => self.list(alloc, name, items),
            Decl::Fun {
                kind,
                name,
                args,
                codomain,
                table,
            } => self.function(alloc, *kind, name, args, codomain, table),
        }
    }
}
