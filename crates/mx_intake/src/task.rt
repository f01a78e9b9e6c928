//! The form of a task of a maintenance programme.
ghost use Rattle.std.specs.Prelude.{◌≡◌, ◌≢◌, IfErr, option_map};
ghost use Rattle.toml.specs.View.{view};
ghost use Rattle.mx_intake.specs.declared.fault.TheConstants.{MEMORY};
ghost use Rattle.mx_intake.specs.Tasks.{behind, part_of_text, applies_of_text, stated_task, task_form, task_by_toml};

use crate::fault::{BAD_SHAPE, BAD_VALUE, MISSING, UNKNOWN_KEY};
use crate::limits::{have_other_key, limit_at, limit_if_there, tolerance_of};
use crate::table::{flag_if_there, has_other, lacks, text_at};
use crate::vocabulary::read_identifier;
use mx_book::commands::{Applies, Task};
use toml::Value;

/// What stands in a text behind a prefix.
fn behind<'t>(text: &'t str, prefix: &str) -> Option<&'t str>
    ensures { option_map (λ t. t.now) result ≡ behind prefix.now text.now }
{
    text.strip_prefix(prefix)
}

/// The components of the part that a text names.
fn read_part(text: &str) -> Option<Applies>
    ensures { result ≡ part_of_text text.now }
{
    let part = read_identifier(behind(text, "part:")?)?;
    Some(Applies::Part(part))
}

/// What a text says that a task is done on.
fn read_applies(text: &str) -> Option<Applies>
    ensures { result ≡ applies_of_text text.now }
{
    if text == "airframe" {
        Some(Applies::Airframe)
    } else {
        read_part(text)
    }
}

/// The task that a table states, where every value can be read.
fn stated(table: &Value) -> Option<Task>
    ensures { result ≡ stated_task (view table.now) }
{
    Some(Task {
        id: read_identifier(text_at(table, "id")?)?,
        applies: read_applies(text_at(table, "applies")?)?,
        first: limit_at(table, "first")?,
        repeat: limit_if_there(table, "repeat")?,
        tolerance: tolerance_of(limit_if_there(table, "tolerance")?),
        retire: flag_if_there(table, "retire")?.unwrap_or(false),
    })
}

/// The task that a table gives by its form, or the number of its least fault.
fn task_of_table(table: &Value) -> Result<Task, u8>
    ensures task { result ≡ task_form (view table.now) }
    ensures number { IfErr result (λ n. n ≢ MEMORY) }
{
    let keys = ["id", "applies", "first", "repeat", "tolerance", "retire"];
    if lacks(table, &["id", "applies", "first"]) {
        return Err(MISSING);
    }
    let Some(task) = stated(table) else {
        return Err(BAD_VALUE);
    };
    if has_other(table, &keys) || have_other_key(table) {
        return Err(UNKNOWN_KEY);
    }
    if task.has_shape() {
        Ok(task)
    } else {
        Err(BAD_SHAPE)
    }
}

/// The task that a value states, or the number of its least fault.
pub(crate) fn task_of(value: &Value) -> Result<Task, u8>
    ensures task { result ≡ task_by_toml (view value.now) }
    ensures number { IfErr result (λ n. n ≢ MEMORY) }
{
    if value.is_table() {
        task_of_table(value)
    } else {
        Err(BAD_VALUE)
    }
}
