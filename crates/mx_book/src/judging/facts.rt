//! Nothing against a line of a release, and what there is against one line or another.
ghost use Rattle.std.specs.Prelude.{◌≡◌, ◌||◌};
ghost use Rattle.mx_book.specs.Facts.{no_facts, either as either_of};

use crate::facts::LineFacts;

/// Nothing against a line.
pub(crate) fn no_facts() -> LineFacts
    ensures { result ≡ no_facts }
{
    LineFacts {
        unknown_aircraft: false,
        unknown_component: false,
        without_programme: false,
        unknown_task: false,
        unknown_defect: false,
        item_elsewhere: false,
        closed_task: false,
        retirement: false,
        closed_defect: false,
        other_aircraft: false,
    }
}

// Whether one of two holds, both of which are known.
fn one_of(a: bool, b: bool) -> bool
    ensures { result ≡ a || b }
{
    a || b
}

/// What there is against one line or another.
pub(crate) fn either(a: &LineFacts, b: &LineFacts) -> LineFacts
    ensures { result ≡ either_of a.now b.now }
{
    LineFacts {
        unknown_aircraft: one_of(a.unknown_aircraft, b.unknown_aircraft),
        unknown_component: one_of(a.unknown_component, b.unknown_component),
        without_programme: one_of(a.without_programme, b.without_programme),
        unknown_task: one_of(a.unknown_task, b.unknown_task),
        unknown_defect: one_of(a.unknown_defect, b.unknown_defect),
        item_elsewhere: one_of(a.item_elsewhere, b.item_elsewhere),
        closed_task: one_of(a.closed_task, b.closed_task),
        retirement: one_of(a.retirement, b.retirement),
        closed_defect: one_of(a.closed_defect, b.closed_defect),
        other_aircraft: one_of(a.other_aircraft, b.other_aircraft),
    }
}
