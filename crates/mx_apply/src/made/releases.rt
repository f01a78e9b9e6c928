//! The rows of a release, and what is known of its lines.
ghost use Rattle.std.specs.Prelude.{◌≡◌, ◌≤◌, All, IfOk, IfSome, length, true};
ghost use Rattle.sqlite.specs.Held.{state};
ghost use Rattle.mx_book.specs.commands.Act.{Released};
ghost use Rattle.mx_book.specs.commands.Programme.{task_shape};
ghost use Rattle.mx_book.specs.declared.commands.shape.TheConstants.{MOST_LINES};
ghost use Rattle.mx_book.specs.due.Due.{IsLife};
ghost use Rattle.mx_book.specs.Judge.{item_at};
ghost use Rattle.mx_book.specs.Life.{life_now, use_or_none};
ghost use Rattle.mx_book.specs.Programme.{kind_at};
ghost use Rattle.mx_book.specs.Register.{found_of};
ghost use Rattle.mx_registers.specs.kept.Items.{number_of_place};
ghost use Rattle.mx_base.specs.rows.Rows.{FitsEntry};
ghost use Rattle.mx_row_rules.specs.changes.Certified.{AreKnownOf, HasLifeReached, IsKnownOf};
ghost use Rattle.mx_lookups.specs.numbers.AnyRows.{ReadsAny};
ghost use Rattle.mx_lookups.specs.numbers.Given.{ItemNumber};
ghost use Rattle.mx_lookups.specs.numbers.Reads.{Reads};
ghost use Rattle.mx_lookups.specs.numbers.Told.{ItemDamage, TellsDamage};
ghost use Rattle.mx_apply.specs.made.Damage.{ActDamage, DueDamage, LifeDamage, LineKnownDamage, ReleaseKnownDamage};
ghost use Rattle.mx_apply.specs.made.Found.{AreLinesAt, AreRowsBy, DueBy, IsLineFound, ItemFound, KindAt, LifeBy, NumberBy};
ghost use Rattle.mx_apply.specs.made.Made.{AreRowsOf};
ghost use Rattle.mx_apply.specs.made.Releases.{due_by_kind};

use crate::made::numbers::{number_of_defect, number_of_item};
use crate::made::totals::{is_life, totals_of};
use mx_base::rows::EntryRow;
use mx_base::{Kind, Limit, TaskId, Use};
use mx_book::commands::{Item, Line, Place, Release};
use mx_book::due::due_after;
use mx_book::found::{Found, birth_of, item_of_place, kind_of_place};
use mx_layout::{Table, TableFault};
use mx_lookups::lives::lives::life;
use mx_lookups::lives::programmes::task;
use mx_lookups::lives::work::base;
use mx_lookups::numbers::items::{aircraft, component};
use mx_row_rules::changes::{Certified, CommandRows, release_rows};
use sqlite::{Alter, Transaction};
use std::alloc::Global;

// What the registers have of an item.
fn found_of_item<S: Alter>(
    alloc: Global,
    tx: &mut Transaction<'_, S>,
    item: &Item,
) -> Result<Found, TableFault>
    ensures same_reference { tx.new.conn.ghost_name ≡ tx.old.conn.ghost_name }
    ensures reads { Reads (λ book found. found ≡ found_of book item.now)
        (state S.Store tx.old.conn.now) (state S.Store tx.new.conn.now) result }
    ensures any_rows { ReadsAny (ItemFound item.now)
        (state S.Store tx.old.conn.now) (state S.Store tx.new.conn.now) result }
    ensures damage { TellsDamage (ItemDamage item.now)
        (state S.Store tx.old.conn.now) (state S.Store tx.new.conn.now) result }
{
    match item {
        Item::Airframe(tail) => {
            let found = aircraft(alloc, tx, tail)?;
            Ok(Found::Airframe(found))
        }
        Item::Component(serial) => {
            let found = component(alloc, tx, serial)?;
            Ok(Found::Component(found))
        }
    }
}

// The number of a place, and the kind whose programme work is done by there.
fn place_found<S: Alter>(
    alloc: Global,
    tx: &mut Transaction<'_, S>,
    place: &Place,
) -> Result<(u32, Option<Kind>), TableFault>
    ensures same_reference { tx.new.conn.ghost_name ≡ tx.old.conn.ghost_name }
    ensures reads { Reads (λ book found.
        (found.0 ≡ number_of_place book place.now) × (found.1 ≡ kind_at book place.now))
        (state S.Store tx.old.conn.now) (state S.Store tx.new.conn.now) result }
    ensures any_rows { ReadsAny (λ trees found.
        NumberBy (ItemNumber (item_at place.now)) trees found.0 × KindAt place.now trees found.1)
        (state S.Store tx.old.conn.now) (state S.Store tx.new.conn.now) result }
    ensures damage { TellsDamage (ItemDamage (item_at place.now))
        (state S.Store tx.old.conn.now) (state S.Store tx.new.conn.now) result }
{
    let item = item_of_place(place);
    let number = number_of_item(alloc, tx, &item)?;
    let found = found_of_item(alloc, tx, &item)?;
    Ok((number, kind_of_place(place, &found)))
}

// The life that an item has now, none where it is not there. `Damaged` where its total is past a life.
fn life_reached<S: Alter>(
    alloc: Global,
    tx: &mut Transaction<'_, S>,
    item: &Item,
) -> Result<Use, TableFault>
    ensures same_reference { tx.new.conn.ghost_name ≡ tx.old.conn.ghost_name }
    ensures reads { Reads (λ book reached. reached ≡ use_or_none (life_now book item.now))
        (state S.Store tx.old.conn.now) (state S.Store tx.new.conn.now) result }
    ensures any_rows { ReadsAny (LifeBy item.now)
        (state S.Store tx.old.conn.now) (state S.Store tx.new.conn.now) result }
    ensures damage { TellsDamage (LifeDamage item.now)
        (state S.Store tx.old.conn.now) (state S.Store tx.new.conn.now) result }
    ensures life { IfOk result IsLife }
{
    let found = life(alloc, tx, item)?;
    match found {
        Some(reached) => {
            if is_life(&reached) {
                Ok(reached)
            } else {
                Err(TableFault::Damaged(Table::Total2))
            }
        }
        None => Ok(Use {
            minutes: 0,
            cycles: 0,
        }),
    }
}

// When a task of an item is due, where it is, by the programme of a kind.
fn due_by<S: Alter>(
    alloc: Global,
    tx: &mut Transaction<'_, S>,
    kind: &Option<Kind>,
    item: &Item,
    id: &TaskId,
) -> Result<Option<Limit>, TableFault>
    ensures same_reference { tx.new.conn.ghost_name ≡ tx.old.conn.ghost_name }
    ensures reads { Reads (λ book due. due ≡ due_by_kind book kind.now item.now id.now)
        (state S.Store tx.old.conn.now) (state S.Store tx.new.conn.now) result }
    ensures any_rows { ReadsAny (DueBy kind.now item.now id.now)
        (state S.Store tx.old.conn.now) (state S.Store tx.new.conn.now) result }
    ensures damage { TellsDamage (DueDamage kind.now item.now id.now)
        (state S.Store tx.old.conn.now) (state S.Store tx.new.conn.now) result }
{
    let found = found_of_item(alloc, tx, item)?;
    let last = base(alloc, tx, item, id)?;
    match kind {
        Some(kind) => {
            let known = task(alloc, tx, kind, id)?;
            match known {
                Some(named) => match named {
                    Some(task) => Ok(due_after(last, birth_of(&found), &task)),
                    None => Ok(None),
                },
                None => Ok(None),
            }
        }
        None => Ok(None),
    }
}

// What is known of a line of a release, by the kind whose programme the work is done by.
fn line_known<S: Alter>(
    alloc: Global,
    tx: &mut Transaction<'_, S>,
    release: &Release,
    kind: &Option<Kind>,
    line: &Line,
) -> Result<Certified, TableFault>
    ensures same_reference { tx.new.conn.ghost_name ≡ tx.old.conn.ghost_name }
    ensures reads { Reads (λ book known. kind.now ≡ kind_at book release.now.place
        → IsKnownOf book release.now line.now known)
        (state S.Store tx.old.conn.now) (state S.Store tx.new.conn.now) result }
    ensures any_rows { ReadsAny (λ trees known. IsLineFound kind.now trees line.now known)
        (state S.Store tx.old.conn.now) (state S.Store tx.new.conn.now) result }
    ensures damage { TellsDamage (LineKnownDamage kind.now line.now)
        (state S.Store tx.old.conn.now) (state S.Store tx.new.conn.now) result }
    ensures life { IfOk result HasLifeReached }
{
    match line {
        Line::Done(item, id) => {
            let number = number_of_item(alloc, tx, item)?;
            let reached = life_reached(alloc, tx, item)?;
            let due = due_by(alloc, tx, kind, item, id)?;
            Ok(Certified::Done(number, *id, reached, due))
        }
        Line::Rectified(doc) => {
            let number = number_of_defect(alloc, tx, doc)?;
            Ok(Certified::Rectified(number))
        }
    }
}

// The number of the place of a release, and what is known of its lines.
fn release_known<S: Alter>(
    alloc: Global,
    tx: &mut Transaction<'_, S>,
    release: &Release,
    lines: &[Line],
) -> Result<(u32, Vec<Certified>), TableFault>
    ensures same_reference { tx.new.conn.ghost_name ≡ tx.old.conn.ghost_name }
    ensures reads { Reads (λ book known. (known.0 ≡ number_of_place book release.now.place)
        × AreKnownOf book release.now lines.now known.1.items)
        (state S.Store tx.old.conn.now) (state S.Store tx.new.conn.now) result }
    ensures any_rows { ReadsAny (λ trees known.
        NumberBy (ItemNumber (item_at release.now.place)) trees known.0
        × AreLinesAt release.now.place lines.now trees known.1.items)
        (state S.Store tx.old.conn.now) (state S.Store tx.new.conn.now) result }
    ensures damage { TellsDamage (ReleaseKnownDamage release.now.place lines.now)
        (state S.Store tx.old.conn.now) (state S.Store tx.new.conn.now) result }
    ensures each { IfOk result (λ known. length known.1.items ≡ length lines.now) }
    ensures lives { IfOk result (λ known. All HasLifeReached known.1.items) }
{
    // The checker proves this loop only where the type of each field of what is known is named in the function.
    let _: Option<Limit> = None;
    let (number, kind) = place_found(alloc, tx, &release.place)?;
    let mut known = Vec::new(alloc);
    let mut rest = lines;
    while let Some((line, later)) = rest.split_first() {
        let one = line_known(alloc, tx, release, &kind, line)?;
        known.push(one)?;
        rest = later;
    }
    Ok((number, known))
}

/// The rows of a release with its lines. `Damaged` as for the totals of the items of its place and of its lines, and for the last
/// bases and the tasks in force of its lines.
pub fn rows_of_release<S: Alter>(
    alloc: Global,
    tx: &mut Transaction<'_, S>,
    entry: EntryRow,
    release: Release,
    lines: &[Line],
) -> Result<CommandRows, TableFault>
    requires fits { FitsEntry entry }
    requires few { length lines.now ≤ MOST_LINES }
    ensures same_reference { tx.new.conn.ghost_name ≡ tx.old.conn.ghost_name }
    ensures reads { Reads (AreRowsOf (Released release lines.now) entry)
        (state S.Store tx.old.conn.now) (state S.Store tx.new.conn.now) result }
    ensures any_rows { ReadsAny (AreRowsBy (Released release lines.now) entry)
        (state S.Store tx.old.conn.now) (state S.Store tx.new.conn.now) result }
    ensures damage { TellsDamage (ActDamage (Released release lines.now))
        (state S.Store tx.old.conn.now) (state S.Store tx.new.conn.now) result }
{
    let (item, known) = release_known(alloc, tx, &release, lines)?;
    let totals = totals_of(alloc, tx, &[item])?;
    Ok(release_rows(alloc, entry, release, item, &known, &totals)?)
}
