//! The line of a fault.
ghost use Rattle.std.specs.Prelude.{◌≡◌, ◌++◌, codes, OnOk};
ghost use Rattle.std.specs.Io.KnownBytes.{Appends};
ghost use Rattle.mx_layout.specs.Names.{table_name};
ghost use Rattle.mx_output.specs.endings.FaultLine.{intake_words, line_of, office_words};

use mx_faults::Fault;
use mx_intake::IntakeFault;
use mx_layout::Table;
use std::io;
use std::io::Write;

/// Writes why a text gives no commands: `fault NUMBER entry N`.
pub fn write_intake<W: Write>(out: &mut W, fault: IntakeFault) -> io::Result<()>
    ensures { OnOk result (Appends (W.contents out.old) (W.contents out.new)
        (line_of (intake_words fault))) }
{
    let number = fault.number;
    let entry = fault.entry;
    writeln!(out, "fault {number} entry {entry}")
}

/// Writes that a row of a table can't be read, or that the rows are those of no book: `fault damaged TABLE`.
pub fn write_damaged<W: Write>(out: &mut W, table: Table) -> io::Result<()>
    ensures { OnOk result (Appends (W.contents out.old) (W.contents out.new)
        (line_of (codes "damaged " ++ table_name table))) }
{
    let name = table.name();
    writeln!(out, "fault damaged {name}")
}

/// Writes what stopped a call of the office: `fault memory`, `fault store`, `fault reopen` or `fault damaged TABLE`.
pub fn write_fault<W: Write>(out: &mut W, fault: Fault) -> io::Result<()>
    ensures { OnOk result (Appends (W.contents out.old) (W.contents out.new)
        (line_of (office_words fault))) }
{
    match fault {
        Fault::Memory => out.write_all(b"fault memory\n"),
        Fault::Store => out.write_all(b"fault store\n"),
        Fault::NeedsReopen => out.write_all(b"fault reopen\n"),
        Fault::Damaged(table) => write_damaged(out, table),
    }
}
