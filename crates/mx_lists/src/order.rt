//! Rows in order.
//!
//! The definition of order puts each row in its turn before the first that it comes before, which computes and leaves
//! ties as they were. The code sorts with the library's stable sort, and that the two agree is proved once for every
//! list. `Rows` is a vector that clauses see as the list of its rows, so that an answer can be said to be the
//! definition's: two plain vectors with the same rows differ in where their memory lies.
ghost use Rattle.std.specs.Prelude.{◌≡◌, Bool, IfOk};
ghost use Rattle.std.specs.List.Sorted.{IsPermutation, IsSortedBy, IsStableBy};
ghost use Rattle.std.specs.Cmp.{IsStrictWeakOrder};
ghost use Rattle.std.specs.Cmp.Lexicographic.{pointwise, lists_per};
ghost use Rattle.std.proofs.lemmas.Cmp.{lists_equiv};
ghost use Rattle.std.specs.Ordering.{is_lt};
ghost use Rattle.mx_lists.specs.Order.{in_order};

use std::alloc::AllocError;
use std::cmp::Ordering;
use std::marker::Model;

/// A row that has its place among others.
pub trait Placed: Copy {
    ghost before: { Self → Self → Bool };

    /// Whether it comes before another row.
    fn before(&self, other: &Self) -> bool
        ensures { result ≡ before self.now other.now };

    ghost ranks: { IsStrictWeakOrder before };
}

/// Rows in their order. Contracts see the list of the rows.
#[derive(Debug, Drop)]
pub struct Rows<T: Placed> {
    items: Vec<T>,
}

impl<T: Placed> Model for Rows<T> {
    ghost use Rattle.std.specs.Prelude.{List};

    ghost Value = { List T };

    ghost view = { λ r. r.items.items };
}

impl<T: Placed> Rows<T> {
    /// The rows of a vector, in the order that it has.
    pub fn new(items: Vec<T>) -> Rows<T>
        ensures { result ≡ items.items }
    {
        Rows { items }
    }

    /// The rows.
    pub fn as_slice(&self) -> &[T]
        ensures { result.now ≡ self.now }
    {
        self.items.as_slice()
    }
}

impl<T: Placed + PartialEq> PartialEq for Rows<T> {
    ghost eq = { pointwise T.eq };

    ghost laws = { lists_per T.PartialEq.laws };

    fn eq(&self, other: &Self) -> bool {
        self.as_slice() == other.as_slice()
    }
}

impl<T: Placed + Eq> Eq for Rows<T> {
    ghost laws = { lists_equiv T.Eq.laws };
}

// How two rows compare.
fn compared<T: Placed>(a: &T, b: &T) -> Ordering
    ensures { is_lt result ≡ T.before a.now b.now }
{
    if a.before(b) {
        Ordering::Less
    } else if b.before(a) {
        Ordering::Greater
    } else {
        Ordering::Equal
    }
}

/// The rows of a vector, put in order; ties stay as they were. An error where memory runs out.
pub(crate) fn sorted<T: Placed>(mut rows: Vec<T>) -> Result<Rows<T>, AllocError>
    ensures order { IfOk result (λ r. r ≡ in_order T.before rows.items) }
    ensures permutation { IfOk result (λ r. IsPermutation rows.items r) }
    ensures ascending { IfOk result (λ r. IsSortedBy T.before r) }
    ensures stable { IfOk result (λ r. IsStableBy T.before rows.items r) }
{
    rows.sort_by(|a, b| compared(a, b))?;
    Ok(Rows { items: rows })
}
