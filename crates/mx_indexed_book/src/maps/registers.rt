//! The registers in maps: the number of each document, of the entry that added each aircraft and each component, and the row of each
//! defect and extension.
ghost use Rattle.std.specs.Prelude.{◌≡◌, ◌+◌, [], List, length};
ghost use Rattle.std.specs.Bool.{OnTrue};
ghost use Rattle.mx_book.specs.commands.Act.{Entry};
ghost use Rattle.mx_book.specs.Defect.{deferred_by};
ghost use Rattle.mx_indexed_book.specs.maps.OneMore.{Equal, SayOneMore};
ghost use Rattle.mx_indexed_book.specs.maps.Registers.{AreRegisters, RegistersHaveRoom, registers_changed};

use crate::maps::maps::{make_room, put};
use mx_base::{Doc, Serial, Tail};
use mx_book::Defect;
use mx_book::commands::{Command, Extension};
use std::alloc::Global;
use std::collections::BTreeMap;

/// The numbers of documents, aircraft and components, and the rows of defects and extensions by their names.
#[derive(Drop)]
pub struct Registers {
    /// The number of the entry of each document.
    pub documents: BTreeMap<Doc, Option<u32>>,
    /// The number of the entry that added the aircraft of each registration.
    pub aircraft: BTreeMap<Tail, Option<u32>>,
    /// The number of the entry that added the component of each serial number.
    pub components: BTreeMap<Serial, Option<u32>>,
    /// The defect that was deferred by each document.
    pub defects: BTreeMap<Doc, Option<Defect>>,
    /// The extension of the defect of each document.
    pub extensions: BTreeMap<Doc, Option<Extension>>,
}

/// What one entry changes of them.
#[derive(Clone, Copy)]
pub struct RegisterChanges {
    pub(crate) document: Option<(Doc, Option<u32>)>,
    pub(crate) aircraft: Option<(Tail, Option<u32>)>,
    pub(crate) component: Option<(Serial, Option<u32>)>,
    pub(crate) defect: Option<(Doc, Option<Defect>)>,
    pub(crate) extension: Option<(Doc, Option<Extension>)>,
}

// The defect that an entry defers.
fn defect_deferred(entry: &Command) -> Option<Defect>
    ensures { result ≡ deferred_by entry.now }
{
    match entry.deferral() {
        Some(deferral) => Some(Defect {
            doc: entry.doc(),
            deferral,
        }),
        None => None,
    }
}

/// What an entry changes that has this number.
pub fn registers_changed(entry: &Command, seq: u32) -> RegisterChanges
    ensures { (book : List Entry) → seq ≡ length book + 1
        → result ≡ registers_changed book entry.now }
{
    RegisterChanges {
        document: Some((entry.doc(), Some(seq))),
        aircraft: entry
            .added_aircraft()
            .map(|aircraft| (aircraft.tail, Some(seq))),
        component: entry
            .added_component()
            .map(|component| (component.serial, Some(seq))),
        defect: defect_deferred(entry).map(|defect| (defect.doc, Some(defect))),
        extension: entry
            .extension()
            .map(|extension| (extension.defect, Some(extension))),
    }
}

impl Registers {
    /// Those of the empty book, which take no memory.
    pub fn new(alloc: Global) -> Registers
        ensures { AreRegisters [] result }
    {
        Registers {
            documents: BTreeMap::new(alloc),
            aircraft: BTreeMap::new(alloc),
            components: BTreeMap::new(alloc),
            defects: BTreeMap::new(alloc),
            extensions: BTreeMap::new(alloc),
        }
    }

    /// Makes room for what an entry changes. Whether there was memory for it; in either case the maps say what they said.
    pub fn make_room(&mut self, changes: &RegisterChanges) -> bool
        ensures same { (book : List Entry) → AreRegisters book self.old
            → AreRegisters book self.new }
        ensures room { OnTrue result (RegistersHaveRoom changes.now self.new) }
    {
        let documents = make_room(&mut self.documents, &changes.document, None);
        let aircraft = make_room(&mut self.aircraft, &changes.aircraft, None);
        let components = make_room(&mut self.components, &changes.component, None);
        let defects = make_room(&mut self.defects, &changes.defect, None);
        let extensions = make_room(&mut self.extensions, &changes.extension, None);
        documents & aircraft & components & defects & extensions
    }

    /// Enters what an entry changes, for which there is room.
    pub fn put(&mut self, changes: &RegisterChanges)
        requires { RegistersHaveRoom changes.now self.old }
        ensures { SayOneMore AreRegisters (Equal changes.now registers_changed) self.old self.new }
    {
        put(&mut self.documents, &changes.document);
        put(&mut self.aircraft, &changes.aircraft);
        put(&mut self.components, &changes.component);
        put(&mut self.defects, &changes.defect);
        put(&mut self.extensions, &changes.extension);
    }
}
