//! How commands are handed in to an open office, and their replies: a list that is run, or the good rows of a sector log that is imported.

use crate::player::Player;
use crate::sweep::End;
use mx_test_cases::{Disks, Wrong, append_joined, must};
use std::alloc::Global;

/// How the commands of the list are handed in.
#[derive(Drop)]
pub(crate) enum Handing {
    /// The list is run.
    Run,
    /// The text is imported, a sector log whose good rows state the commands of the list. This is what its rows are told where
    /// nothing stops the import.
    Import(String),
}

/// The import of the text into the office that the files hold, as it is where nothing stops it.
pub(crate) fn whole_import<D: Disks>(player: &mut Player<D>) -> Result<Handing, Wrong> {
    must(player.says("open", "opened")?, "files that are not opened")?;
    let told = player.line("import")?;
    player.stop(End::Process)?;
    Ok(Handing::Import(told))
}

// The number of a row, and what the row is told: the reply to a good one, or the fault of a bad one.
fn told_row(part: &str) -> Option<(&str, &str)> {
    part.strip_prefix("row ")?.split_once(' ')
}

// Appends what a row is told where it is a reply. A row is bad where it is so in an import that nothing stops, and is told the same then.
fn append_told(
    out: &mut String,
    (number, said): (&str, &str),
    wanted: Option<&str>,
) -> Result<(), Wrong> {
    let Some((wanted_number, wanted)) = told_row(wanted.unwrap_or("")) else {
        return Err(Wrong::Found("more rows than the log has"));
    };
    must(number == wanted_number, "a row with the number of another")?;
    if said.starts_with("fault ") || wanted.starts_with("fault ") {
        return must(said == wanted, "a bad row that is told otherwise");
    }
    Ok(append_joined(out, said)?)
}

// The replies to the good rows, and what stopped the import.
fn replies_of_rows(alloc: Global, answer: &str, told: &str) -> Result<String, Wrong> {
    let mut replies = String::new(alloc);
    let mut all_told = told.split(" / ");
    for part in answer.split(" / ") {
        match told_row(part) {
            Some(row) => append_told(&mut replies, row, all_told.next())?,
            None => append_joined(&mut replies, part)?,
        }
    }
    Ok(replies)
}

impl Handing {
    /// Hands in the commands: the replies to them, and what stopped them.
    pub(crate) fn replies<D: Disks>(
        &self,
        alloc: Global,
        player: &mut Player<D>,
    ) -> Result<String, Wrong> {
        match self {
            Handing::Run => Ok(player.line("run")?),
            Handing::Import(told) => {
                replies_of_rows(alloc, player.line("import")?.as_str(), told.as_str())
            }
        }
    }
}
