//! What was accomplished and what was rectified, in maps.
ghost use Rattle.std.specs.Prelude.{◌≡◌, [], IfOk, List};
ghost use Rattle.std.specs.Bool.{OnTrue};
ghost use Rattle.std.specs.List.{filter_map};
ghost use Rattle.mx_book.specs.commands.Act.{Entry, lines_of};
ghost use Rattle.mx_book.specs.Defect.{is_rectified};
ghost use Rattle.mx_book.specs.Programme.{is_accomplished};
ghost use Rattle.mx_indexed_book.specs.maps.OneMore.{SayOneMore};
ghost use Rattle.mx_indexed_book.specs.maps.Work.{IsWork, IsWorkChanged, WorkHasRoom, airframe_task, component_task, keyed, line_defect, line_task, tasks_done};

use crate::maps::maps::{held, make_room_for_all, put_all};
use mx_base::{Doc, Serial, Tail, TaskId};
use mx_book::commands::{Command, Item, Line};
use std::alloc::{AllocError, Global};
use std::collections::BTreeMap;

/// Which tasks of each airframe and of each component were accomplished, and the defects that were rectified.
#[derive(Drop)]
pub struct Work {
    pub(crate) airframes: BTreeMap<(Tail, TaskId), bool>,
    pub(crate) components: BTreeMap<(Serial, TaskId), bool>,
    pub(crate) rectified: BTreeMap<Doc, bool>,
}

/// What one entry changes of them.
#[derive(Drop)]
pub struct WorkChanges {
    pub(crate) airframes: Vec<((Tail, TaskId), bool)>,
    pub(crate) components: Vec<((Serial, TaskId), bool)>,
    pub(crate) rectified: Vec<(Doc, bool)>,
}

// The task of an item that a line certifies.
fn task_certified(line: &Line) -> Option<(Item, TaskId)>
    ensures { result ≡ line_task line.now }
{
    match line {
        Line::Done(item, id) => Some((*item, *id)),
        Line::Rectified(_) => None,
    }
}

// The tasks that some lines certify, each of an item.
fn tasks_certified(alloc: Global, lines: &[Line]) -> Result<Vec<(Item, TaskId)>, AllocError>
    ensures { IfOk result (λ done. done.items ≡ filter_map line_task lines.now) }
{
    lines
        .iter()
        .filter_map(|line| task_certified(line))
        .collect(alloc)
}

// The tasks that an entry accomplishes, each of an item.
fn tasks_accomplished(alloc: Global, entry: &Command) -> Result<Vec<(Item, TaskId)>, AllocError>
    ensures { IfOk result (λ done. done.items ≡ tasks_done entry.now.act) }
{
    if let Some(opening) = entry.stated_opening() {
        let mut done = Vec::new(alloc);
        done.push((opening.item, opening.task))?;
        return Ok(done);
    }
    tasks_certified(alloc, entry.lines())
}

// A task that is accomplished, of an airframe.
fn of_airframe(done: &(Item, TaskId)) -> Option<((Tail, TaskId), bool)>
    ensures { result ≡ keyed airframe_task done.now }
{
    let (item, id) = done;
    match item {
        Item::Airframe(tail) => Some(((*tail, *id), true)),
        Item::Component(_) => None,
    }
}

// A task that is accomplished, of a component.
fn of_component(done: &(Item, TaskId)) -> Option<((Serial, TaskId), bool)>
    ensures { result ≡ keyed component_task done.now }
{
    let (item, id) = done;
    match item {
        Item::Airframe(_) => None,
        Item::Component(serial) => Some(((*serial, *id), true)),
    }
}

// Of tasks that are accomplished those of airframes.
fn of_airframes(
    alloc: Global,
    done: &[(Item, TaskId)],
) -> Result<Vec<((Tail, TaskId), bool)>, AllocError>
    ensures { IfOk result (λ tasks. tasks.items ≡ filter_map (keyed airframe_task) done.now) }
{
    done.iter()
        .filter_map(|one| of_airframe(one))
        .collect(alloc)
}

// Of tasks that are accomplished those of components.
fn of_components(
    alloc: Global,
    done: &[(Item, TaskId)],
) -> Result<Vec<((Serial, TaskId), bool)>, AllocError>
    ensures { IfOk result (λ tasks. tasks.items ≡ filter_map (keyed component_task) done.now) }
{
    done.iter()
        .filter_map(|one| of_component(one))
        .collect(alloc)
}

// The defect that a line certifies to be rectified.
fn defect_certified(line: &Line) -> Option<(Doc, bool)>
    ensures { result ≡ line_defect line.now }
{
    match line {
        Line::Done(_, _) => None,
        Line::Rectified(doc) => Some((*doc, true)),
    }
}

// The defects that an entry certifies to be rectified.
fn defects_rectified(alloc: Global, entry: &Command) -> Result<Vec<(Doc, bool)>, AllocError>
    ensures { IfOk result (λ done. done.items
        ≡ filter_map line_defect (lines_of entry.now.act)) }
{
    entry
        .lines()
        .iter()
        .filter_map(|line| defect_certified(line))
        .collect(alloc)
}

/// What an entry changes. An error where memory runs out.
pub fn work_changed(alloc: Global, entry: &Command) -> Result<WorkChanges, AllocError>
    ensures { IfOk result (λ changes. IsWorkChanged entry.now changes) }
{
    let done = tasks_accomplished(alloc, entry)?;
    let airframes = of_airframes(alloc, done.as_slice())?;
    let components = of_components(alloc, done.as_slice())?;
    let rectified = defects_rectified(alloc, entry)?;
    Ok(WorkChanges {
        airframes,
        components,
        rectified,
    })
}

impl Work {
    /// That of the empty book, which takes no memory.
    pub fn new(alloc: Global) -> Work
        ensures { IsWork [] result }
    {
        Work {
            airframes: BTreeMap::new(alloc),
            components: BTreeMap::new(alloc),
            rectified: BTreeMap::new(alloc),
        }
    }

    /// Whether the task of an item was accomplished.
    pub fn is_accomplished(&self, item: &Item, id: &TaskId) -> bool
        ensures { (book : List Entry) → IsWork book self.now
            → result ≡ is_accomplished book item.now id.now }
    {
        match item {
            Item::Airframe(tail) => held(&self.airframes, &(*tail, *id), false),
            Item::Component(serial) => held(&self.components, &(*serial, *id), false),
        }
    }

    /// Whether a defect was rectified.
    pub fn is_rectified(&self, doc: &Doc) -> bool
        ensures { (book : List Entry) → IsWork book self.now → result ≡ is_rectified book doc.now }
    {
        held(&self.rectified, doc, false)
    }

    /// Makes room for what an entry changes. Whether there was memory for it; in either case the maps say what they said.
    pub fn make_room(&mut self, changes: &WorkChanges) -> bool
        ensures same { (book : List Entry) → IsWork book self.old → IsWork book self.new }
        ensures room { OnTrue result (WorkHasRoom changes.now self.new) }
    {
        let airframes = make_room_for_all(&mut self.airframes, &changes.airframes, false);
        let components = make_room_for_all(&mut self.components, &changes.components, false);
        let rectified = make_room_for_all(&mut self.rectified, &changes.rectified, false);
        airframes & components & rectified
    }

    /// Enters what an entry changes, for which there is room.
    pub fn put(&mut self, changes: &WorkChanges)
        requires { WorkHasRoom changes.now self.old }
        ensures { SayOneMore IsWork (λ book entry. IsWorkChanged entry changes.now)
            self.old self.new }
    {
        put_all(&mut self.airframes, &changes.airframes);
        put_all(&mut self.components, &changes.components);
        put_all(&mut self.rectified, &changes.rectified);
    }
}
