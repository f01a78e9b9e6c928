//! The command that loads the maintenance programme of a TOML text.
//!
//! The document is no part of the text, so one of the technical log is told where the shape of the top is: behind the
//! missing, unread and unknown keys of the top, and before every fault of a task.
ghost use Rattle.std.specs.Prelude.{◌≡◌, ◌≢◌, Ok, Err, IfOk, IfErr};
ghost use Rattle.mx_intake.specs.declared.fault.TheConstants.{MEMORY};
ghost use Rattle.mx_intake.specs.Loading.{entry_if_programme, entry_of_programme, fault_by_document};

use crate::fault::{BAD_SHAPE, IntakeFault, MEMORY, of_whole};
use crate::programme::programme_of_toml;
use mx_base::Doc;
use mx_book::commands::{Body, Command, MakeFault, Programme, Task, is_of_log};
use std::alloc::Global;

/// The fault that is told by a document, by which no programme is loaded where it is one of the technical log.
fn fault_by_document(doc: &Doc, fault: IntakeFault) -> IntakeFault
    ensures { result ≡ fault_by_document doc.now fault }
{
    if is_of_log(doc) && fault.entry > 0 {
        of_whole(BAD_SHAPE)
    } else {
        fault
    }
}

/// The command that loads a programme with its tasks.
fn command_of(
    alloc: Global,
    doc: Doc,
    programme: Programme,
    tasks: Vec<Task>,
) -> Result<Command, IntakeFault>
    ensures ok { IfOk result (λ c.
        entry_if_programme doc (Ok (programme, tasks.items)) ≡ Ok c) }
    ensures err { IfErr result (λ f. f.number ≢ MEMORY
        → entry_if_programme doc (Ok (programme, tasks.items)) ≡ Err f) }
    ensures memory { IfErr result (λ f. f.entry ≡ 0) }
{
    let body = Body::LoadProgramme {
        kind: programme.kind,
        revision: programme.revision,
        tasks,
    };
    match Command::make(alloc, doc, body) {
        Ok(command) => Ok(command),
        Err(MakeFault::BadShape) => Err(of_whole(BAD_SHAPE)),
        Err(MakeFault::Memory) => Err(of_whole(MEMORY)),
    }
}

/// The command that loads the maintenance programme of a text by a document. The text is one that `programme_of_toml`
/// reads, and the faults are those. A document that begins with `TL/` is one of the technical log, which has no programme:
/// 65 of entry 0, where entry 0 has no other fault, before the faults of the tasks.
pub fn programme_of(alloc: Global, doc: Doc, bytes: &[u8]) -> Result<Command, IntakeFault>
    ensures ok { IfOk result (λ c. entry_of_programme doc bytes.now ≡ Ok c) }
    ensures err { IfErr result (λ f. f.number ≢ MEMORY → entry_of_programme doc bytes.now ≡ Err f) }
    ensures memory { IfErr result (λ f. f.number ≡ MEMORY → f.entry ≡ 0) }
{
    match programme_of_toml(alloc, bytes) {
        Ok((programme, tasks)) => command_of(alloc, doc, programme, tasks),
        Err(fault) => Err(fault_by_document(&doc, fault)),
    }
}
