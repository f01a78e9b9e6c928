//! Rows in the order of their keys.
ghost use Rattle.std.specs.Prelude.{◌≡◌, ℕ, OnOk};
ghost use Rattle.mx_base.specs.rows.Rows.{line_key, place_key, release_line_key, task_key};
ghost use Rattle.mx_registers.specs.file.Sorted.{ArePut};

use mx_base::rows::{
    AircraftRow, ComponentRow, DeferralRow, EntryRow, ExtensionRow, OpeningRow, PlaceRow,
    ProgrammeRow, ReleaseLineRow, ReleaseRow, RemovalRow, SectorRow, SpanRow, TaskRow, TotalRow,
};
use mx_book::entry_list::NoMemory;

/// A row of a table that is in the order of a number, its key.
pub trait Keyed: Copy {
    ghost key: { Self → ℕ };

    /// The key of the row.
    fn key(&self) -> u64
        ensures { result ≡ key self.now };
}

// The key of a row on a line of an entry.
fn line_key(seq: u32, line: u32) -> u64
    ensures { result ≡ line_key seq line }
{
    u64::from(seq) * 4_294_967_296 + u64::from(line)
}

impl Keyed for EntryRow {
    ghost key = { λ row. row.seq };

    fn key(&self) -> u64 {
        u64::from(self.seq)
    }
}

impl Keyed for AircraftRow {
    ghost key = { λ row. row.seq };

    fn key(&self) -> u64 {
        u64::from(self.seq)
    }
}

impl Keyed for ComponentRow {
    ghost key = { λ row. row.seq };

    fn key(&self) -> u64 {
        u64::from(self.seq)
    }
}

impl Keyed for ProgrammeRow {
    ghost key = { λ row. row.seq };

    fn key(&self) -> u64 {
        u64::from(self.seq)
    }
}

impl Keyed for OpeningRow {
    ghost key = { λ row. row.seq };

    fn key(&self) -> u64 {
        u64::from(self.seq)
    }
}

impl Keyed for SectorRow {
    ghost key = { λ row. row.seq };

    fn key(&self) -> u64 {
        u64::from(self.seq)
    }
}

impl Keyed for RemovalRow {
    ghost key = { λ row. row.seq };

    fn key(&self) -> u64 {
        u64::from(self.seq)
    }
}

impl Keyed for ReleaseRow {
    ghost key = { λ row. row.seq };

    fn key(&self) -> u64 {
        u64::from(self.seq)
    }
}

impl Keyed for DeferralRow {
    ghost key = { λ row. row.seq };

    fn key(&self) -> u64 {
        u64::from(self.seq)
    }
}

impl Keyed for ExtensionRow {
    ghost key = { λ row. row.seq };

    fn key(&self) -> u64 {
        u64::from(self.seq)
    }
}

impl Keyed for SpanRow {
    ghost key = { λ row. row.fit_seq };

    fn key(&self) -> u64 {
        u64::from(self.fit_seq)
    }
}

impl Keyed for TotalRow {
    ghost key = { λ row. row.item };

    fn key(&self) -> u64 {
        u64::from(self.item)
    }
}

impl Keyed for PlaceRow {
    ghost key = { place_key };

    fn key(&self) -> u64 {
        line_key(self.seq, self.line)
    }
}

impl Keyed for TaskRow {
    ghost key = { task_key };

    fn key(&self) -> u64 {
        line_key(self.seq, self.line)
    }
}

impl Keyed for ReleaseLineRow {
    ghost key = { release_line_key };

    fn key(&self) -> u64 {
        line_key(self.seq, self.line)
    }
}

/// Puts rows into the order of their keys, which are sorted beside their places: rows of each kind by the same code.
pub fn sort_rows<R: Keyed>(rows: &mut Vec<R>) -> Result<(), NoMemory>
    ensures { OnOk result (ArePut R.key rows.old.items rows.new.items) }
{
    match rows.sort_by_cached_key(|row| row.key()) {
        Ok(()) => Ok(()),
        Err(_) => Err(NoMemory),
    }
}
