//! Sorts, and the sorts that places need.

ghost use Rattle.std.specs.Prelude.{◌≡◌};
ghost use Rattle.asm_names.specs.Sorts as spec;

/// What the values of a term are.
#[derive(Clone, Copy, Debug, PartialEq, Eq)]
pub enum Sort {
    /// Whole numbers.
    Int,
    /// Truth values.
    Truth,
    /// The enumerators of the list domain with this number.
    List(u32),
}

impl Sort {
    /// Whether the sorts are equal.
    pub fn is_same(self, other: Sort) -> bool
        ensures { result ≡ spec.same_sort self other }
    {
        match (self, other) {
            (Sort::Int, Sort::Int) | (Sort::Truth, Sort::Truth) => true,
            (Sort::List(domain), Sort::List(other_domain)) => domain == other_domain,
            _ => false,
        }
    }
}

/// What a place needs of the sort of the term that stands there.
#[derive(Clone, Copy, Debug, PartialEq, Eq)]
pub enum Need {
    /// No sort is refused.
    Anything,
    /// Truth values are refused.
    NotTruth,
    /// Every other sort is refused.
    Only(Sort),
}

impl Need {
    /// The same sort, where there is one, and anything where there is none.
    pub fn same_as(sort: Option<Sort>) -> Need
        ensures { result ≡ spec.same_as sort }
    {
        match sort {
            None => Need::Anything,
            Some(sort) => Need::Only(sort),
        }
    }

    /// Whether the sort isn't the one needed. A missing sort is no fault.
    pub fn refuses(self, sort: Option<Sort>) -> bool
        ensures { result ≡ spec.refuses self sort }
    {
        match (self, sort) {
            (_, None) | (Need::Anything, Some(_)) => false,
            (Need::NotTruth, Some(sort)) => sort.is_same(Sort::Truth),
            (Need::Only(needed), Some(sort)) => !needed.is_same(sort),
        }
    }
}
