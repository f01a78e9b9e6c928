//! Lives by moments: the sectors of registers by landing, beside the spans of each component. The life of an item up to a moment is
//! its opening, what was flown with it as an aircraft by then, and of each of its spans as a component what the aircraft had flown by
//! then or by the end of the span, less what that had flown by its beginning.
ghost use Rattle.std.specs.Prelude.{◌≡◌, ℕ, List, Option, filter, nat_eq, IfOk, IsPermutation, None, OnOk, Some};
ghost use Rattle.std.specs.List.Sorted.{IsNonDecreasingBy};
ghost use Rattle.mx_base.specs.declared.amounts.Use.{Use};
ghost use Rattle.mx_base.specs.declared.rows.rows.SectorRow.{SectorRow};
ghost use Rattle.mx_base.specs.declared.rows.rows.SpanRow.{SpanRow};
ghost use Rattle.mx_book.specs.commands.Act.{Entry};
ghost use Rattle.mx_book.specs.declared.commands.item.Item.{Item};
ghost use Rattle.mx_book.specs.Book.{IsBook};
ghost use Rattle.mx_book.specs.Life.{life_until, opening_of, use_or_none};
ghost use Rattle.mx_registers.specs.Names.{item_at};
ghost use Rattle.mx_registers.specs.Registers.{sector_rows};
ghost use Rattle.mx_registers.specs.kept.Spans.{span_rows};
ghost use Rattle.mx_registers.specs.kept.Moments.{flown_by_number, flown_while, flown_while_all, sooner, use_more};
ghost use Rattle.mx_indexed_book.specs.moments.Flown.{ArePermuted, at_most, component_of};

use crate::moments::landings::{Flown, Landings, less};
use mx_base::rows::{SectorRow, SpanRow};
use mx_base::{Moment, Use};
use mx_book::entry_list::NoMemory;
use std::alloc::Global;
use std::marker::Model;

// The sooner of two moments, where they are named.
fn sooner(one: Option<u32>, other: Option<u32>) -> Option<u32>
    ensures { result ≡ sooner one other }
{
    match (one, other) {
        (None, other) => other,
        (one, None) => one,
        (Some(one), Some(other)) => Some(one.min(other)),
    }
}

// What a component flew in a span by a moment.
fn flown_while(landings: &Landings, until: Option<u32>, span: &SpanRow) -> Flown
    ensures { result ≡ flown_while landings.now until span.now }
{
    let to = span.to.map(|moment| moment.number());
    let later = landings.flown_with(span.aircraft, sooner(until, to));
    let earlier = landings.flown_with(span.aircraft, Some(span.from.number()));
    less(&later, &earlier)
}

// A life with what was flown, or the most that a life has.
fn life_with(life: &Use, flown: &Flown) -> Use
    ensures { result ≡ at_most (use_more flown.now life.now) }
{
    Use {
        minutes: flown.minutes_with(life.minutes),
        cycles: flown.cycles_with(life.cycles),
    }
}

// A life with what was flown in some spans by a moment, or the most that a life has.
fn life_with_spans(landings: &Landings, until: Option<u32>, spans: &[SpanRow], life: &Use) -> Use
    requires { at_most life.now ≡ life.now }
    ensures { result ≡ at_most (use_more (flown_while_all landings.now until spans.now) life.now) }
{
    let mut reached = *life;
    let mut rest = spans;
    while let Some((span, later)) = rest.split_first() {
        reached = life_with(&reached, &flown_while(landings, until, span));
        rest = later;
    }
    reached
}

// The spans of the component with a number, of spans that stand by components.
fn spans_of(spans: &[SpanRow], number: u32) -> &[SpanRow]
    requires { IsNonDecreasingBy component_of spans.now }
    ensures { result.now ≡ filter (λ row. nat_eq row.component number) spans.now }
{
    let first = spans.partition_point(|span| span.component < number);
    let (_, rest) = spans.split_at(first);
    let count = rest.partition_point(|span| span.component <= number);
    let (these, _) = rest.split_at(count);
    these
}

// Puts spans into the order of their components.
fn sort_spans(spans: &mut Vec<SpanRow>) -> Result<(), NoMemory>
    ensures same { IsPermutation spans.old.items spans.new.items }
    ensures order { OnOk result (IsNonDecreasingBy component_of spans.new.items) }
{
    match spans.sort_by_cached_key(|span| u64::from(span.component)) {
        Ok(()) => Ok(()),
        Err(_) => Err(NoMemory),
    }
}

/// Sectors and spans of registers, by which lives are found up to any moment. Contracts see the two lists.
#[derive(Drop)]
pub struct Moments {
    landings: Landings,
    spans: Vec<SpanRow>,
}

impl Model for Moments {
    ghost use Rattle.std.specs.Prelude.{List};
    ghost use Rattle.std.specs.List.Sorted.{IsNonDecreasingBy};
    ghost use Rattle.mx_base.specs.declared.rows.rows.SectorRow.{SectorRow};
    ghost use Rattle.mx_base.specs.declared.rows.rows.SpanRow.{SpanRow};
    ghost use Rattle.mx_indexed_book.specs.moments.Flown.{component_of};

    ghost Value = { List SectorRow × List SpanRow };

    ghost view = { λ a. (a.landings, a.spans.items) };

    ghost invariant = { λ a. IsNonDecreasingBy component_of a.spans.items };
}

impl Moments {
    /// The sectors and the spans of rows in any order. `NoMemory` where memory runs out.
    pub fn of(alloc: Global, sectors: &[SectorRow], spans: &[SpanRow]) -> Result<Moments, NoMemory>
        ensures { IfOk result (ArePermuted sectors.now spans.now) }
    {
        let landings = Landings::of(alloc, sectors)?;
        let mut spans = spans.to_vec(alloc)?;
        sort_spans(&mut spans)?;
        Ok(Moments { landings, spans })
    }

    // The life by a minute, where one is named, of the item with a number that brought this use with it; or the most that a life has.
    fn life_by(&self, number: u32, opening: &Use, until: Option<u32>) -> Use
        ensures { result ≡ at_most
            (use_more (flown_by_number self.now.0 self.now.1 number until) opening.now) }
    {
        let flown = self.landings.flown_with(number, until);
        let life = life_with(opening, &flown);
        let spans = spans_of(self.spans.as_slice(), number);
        life_with_spans(&self.landings, until, spans, &life)
    }

    /// The life of the item with a number that brought this use with it, or the most that a life has.
    pub fn life_now(&self, number: u32, opening: &Use) -> Use
        ensures { result ≡ at_most
            (use_more (flown_by_number self.now.0 self.now.1 number None) opening.now) }
    {
        self.life_by(number, opening, None)
    }

    /// The same up to a moment.
    pub fn life_at(&self, number: u32, opening: &Use, moment: Moment) -> Use
        ensures { result ≡ at_most
            (use_more (flown_by_number self.now.0 self.now.1 number (Some moment)) opening.now) }
    {
        self.life_by(number, opening, Some(moment.number()))
    }
}

/// By the sectors and spans of a book, in any order, a life up to a moment is that of the definition.
#[tactic(auto, using(crate::proofs::MomentsProofs::FlownLemmas::lives_exact))]
pub fn lives_are_exact()
    ensures { (book : List Entry) (moments : List SectorRow × List SpanRow) (number : ℕ) (item : Item)
        (until : Option ℕ) (opening : Use) → IsBook book
        → ArePermuted (sector_rows book) (span_rows book) moments
        → item_at book number ≡ Some item → opening_of book item ≡ Some opening
        → at_most (use_more (flown_by_number moments.0 moments.1 number until) opening)
        ≡ use_or_none (life_until book item until) }
{}
