//! The texts of what there is: all aircraft, and all components.
ghost use Rattle.std.specs.Prelude.{◌≡◌, ◌++◌, OnOk, OnErr};
ghost use Rattle.mx_reports.specs.InventoryText.{aircraft_line, aircraft_lines, component_line, component_lines, count_words, fitted_words, head_alone};
ghost use Rattle.mx_reports.specs.Words.{StartsWith};

use crate::lists::append_rows_and_end;
use crate::text::Text;
use crate::words::{append_count, append_moment, append_use, append_word};
use mx_base::{Position, Tail};
use mx_lists::{AircraftRow, ComponentRow, Rows};
use std::alloc::AllocError;

fn append_head(out: &mut Vec<u8>, word: &[u8]) -> Result<(), AllocError>
    ensures words { OnOk result (out.new.items ≡ out.old.items ++ head_alone word.now) }
    ensures kept { OnErr result (StartsWith out.old.items out.new.items) }
{
    out.extend_from_slice(word)?;
    out.extend_from_slice(b"\n")
}

#[tactic(auto, using(crate::proofs::StartsLemmas::starts_further), unfolding(crate::specs::InventoryText::count_words))]
fn append_counts(out: &mut Vec<u8>, components: usize, defects: usize) -> Result<(), AllocError>
    ensures words { OnOk result
        (out.new.items ≡ out.old.items ++ count_words components defects) }
    ensures kept { OnErr result (StartsWith out.old.items out.new.items) }
{
    out.extend_from_slice(b" fitted=")?;
    append_count(out, components)?;
    out.extend_from_slice(b" open=")?;
    append_count(out, defects)?;
    out.extend_from_slice(b"\n")
}

impl Text for AircraftRow {
    ghost text = { aircraft_line };

    fn append(&self, out: &mut Vec<u8>) -> Result<(), AllocError> {
        out.extend_from_slice(self.tail.as_str().as_bytes())?;
        append_word(out, self.kind.as_str().as_bytes())?;
        append_use(out, &self.life)?;
        append_moment(out, self.clock)?;
        append_counts(out, self.components, self.defects)
    }
}

// All aircraft: `aircraft`; a line for each, with its registration, kind, hours and cycles, the latest moment that is known
// of it, how many components are fitted to it, and how many of its defects are open; and `end` with their number.
impl Text for Rows<AircraftRow> {
    ghost text = { aircraft_lines };

    fn append(&self, out: &mut Vec<u8>) -> Result<(), AllocError> {
        let rows = self.as_slice();
        append_head(out, b"aircraft")?;
        append_rows_and_end(out, rows, rows.len())
    }
}

#[tactic(auto, using(crate::proofs::StartsLemmas::starts_further), unfolding(crate::specs::InventoryText::fitted_words))]
fn append_fitted(out: &mut Vec<u8>, place: &Option<(Tail, Position)>) -> Result<(), AllocError>
    ensures words { OnOk result (out.new.items ≡ out.old.items ++ fitted_words place.now) }
    ensures kept { OnErr result (StartsWith out.old.items out.new.items) }
{
    match place {
        None => out.extend_from_slice(b" - -"),
        Some((tail, position)) => {
            append_word(out, tail.as_str().as_bytes())?;
            append_word(out, position.as_str().as_bytes())
        }
    }
}

impl Text for ComponentRow {
    ghost text = { component_line };

    fn append(&self, out: &mut Vec<u8>) -> Result<(), AllocError> {
        out.extend_from_slice(self.serial.as_str().as_bytes())?;
        append_word(out, self.part.as_str().as_bytes())?;
        append_use(out, &self.life)?;
        append_moment(out, self.clock)?;
        append_fitted(out, &self.place)?;
        out.extend_from_slice(b"\n")
    }
}

// All components: `components`; a line for each, with its serial number, part, hours and cycles, the latest moment that is
// known of it, and the registration and the position that it is fitted to, or `-` twice; and `end` with their number.
impl Text for Rows<ComponentRow> {
    ghost text = { component_lines };

    fn append(&self, out: &mut Vec<u8>) -> Result<(), AllocError> {
        let rows = self.as_slice();
        append_head(out, b"components")?;
        append_rows_and_end(out, rows, rows.len())
    }
}
