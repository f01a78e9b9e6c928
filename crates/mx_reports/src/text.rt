//! Texts: what is printed whole or not at all, and rows one behind the other.
ghost use Rattle.std.specs.Prelude.{◌≡◌, ◌++◌, ℕ, List, OnOk, OnErr};
ghost use Rattle.std.specs.List.{flat_map};
ghost use Rattle.mx_reports.specs.Words.{StartsWith};

use std::alloc::AllocError;

/// What has an exact text: a reply, a row, a list.
pub trait Text {
    ghost text: { Self → List ℕ };

    /// Appends the text. Where memory runs out, what was there before is there still, with some of the text behind it.
    fn append(&self, out: &mut Vec<u8>) -> Result<(), AllocError>
        ensures words { OnOk result (out.new.items ≡ out.old.items ++ text self.now) }
        ensures kept { OnErr result (StartsWith out.old.items out.new.items) };
}

// Appends the texts of rows, one behind the other.
pub(crate) fn append_rows<T: Text>(out: &mut Vec<u8>, rows: &[T]) -> Result<(), AllocError>
    ensures words { OnOk result (out.new.items ≡ out.old.items ++ flat_map T.text rows.now) }
    ensures kept { OnErr result (StartsWith out.old.items out.new.items) }
{
    for row in rows {
        row.append(out)?;
    }
    Ok(())
}

/// Appends the texts of rows, one behind the other, or leaves the items as they were where memory runs out.
pub fn append_all<T: Text>(out: &mut Vec<u8>, rows: &[T]) -> Result<(), AllocError>
    ensures printed { OnOk result (out.new.items ≡ out.old.items ++ flat_map T.text rows.now) }
    ensures unchanged { OnErr result (out.new.items ≡ out.old.items) }
{
    let before = out.len();
    let done = append_rows(out, rows);
    if done.is_err() {
        out.truncate(before);
    }
    done
}

/// Appends a text whole, or leaves the items as they were where memory runs out.
pub fn append_whole<T: Text>(out: &mut Vec<u8>, whole: &T) -> Result<(), AllocError>
    ensures printed { OnOk result (out.new.items ≡ out.old.items ++ T.text whole.now) }
    ensures unchanged { OnErr result (out.new.items ≡ out.old.items) }
{
    let len = out.len();
    let done = whole.append(out);
    if done.is_err() {
        out.truncate(len);
    }
    done
}
