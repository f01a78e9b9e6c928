//! The document that a command is made by.
ghost use Rattle.std.specs.Prelude.{◌≡◌, true, IfOk};
ghost use Rattle.mx_book.specs.commands.Shape.{is_log_doc, sector_doc, sector_shape};

use crate::commands::sector::Sector;
use mx_base::Doc;
use std::alloc::{AllocError, Global};

/// The document of a sector: `TL/tail/page/line`, with plain decimal numbers.
pub(crate) fn document_of_sector(alloc: Global, sector: &Sector) -> Result<Doc, AllocError>
    requires { sector_shape sector.now ≡ true }
    ensures { IfOk result (λ doc. doc ≡ sector_doc sector.now) }
{
    let tail = sector.tail.as_str();
    let page = sector.page;
    let line = sector.line;
    let text = format!(in alloc; "TL/{tail}/{page}/{line}")?;
    Ok(Doc::read(text.as_str()).unwrap())
}

/// Whether a document is one of the technical log, which only a sector has: one that begins with `TL/`.
pub fn is_of_log(doc: &Doc) -> bool
    ensures { result ≡ is_log_doc doc.now }
{
    doc.as_str().as_bytes().starts_with(b"TL/")
}
