//! How files are opened and stopped, as words write it.

use crate::sweep::End;
use mx_test_cases::{Setting, Unmade};

// The setting with one more limit: the calls after which a file fails, or the pages that the log holds.
fn limited(setting: Setting, limit: &[&str]) -> Result<Setting, Unmade> {
    match limit {
        ["log", calls] => Ok(Setting {
            log: calls.parse::<u64>()?,
            ..setting
        }),
        ["db", calls] => Ok(Setting {
            db: calls.parse::<u64>()?,
            ..setting
        }),
        ["pages", pages] => Ok(Setting {
            pages: pages.parse::<usize>()?,
            ..setting
        }),
        _ => Err(Unmade::NoSuchLine),
    }
}

/// The setting of the words `log CALLS`, `db CALLS` and `pages PAGES`, each of which may be left out.
pub(crate) fn setting_of(words: &[&str]) -> Result<Setting, Unmade> {
    let mut setting = Setting::WHOLE;
    for limit in words.chunks(2) {
        setting = limited(setting, limit)?;
    }
    Ok(setting)
}

/// The setting in which the log holds so many pages, and no file fails.
pub(crate) fn holding(pages: &str) -> Result<Setting, Unmade> {
    Ok(Setting {
        pages: pages.parse::<usize>()?,
        ..Setting::WHOLE
    })
}

/// The setting in which the log holds so many pages, and a file fails after so many calls.
pub(crate) fn stopping(file: &str, calls: u64, pages: &str) -> Result<Setting, Unmade> {
    let setting = holding(pages)?;
    match file {
        "log" => Ok(Setting {
            log: calls,
            ..setting
        }),
        "db" => Ok(Setting {
            db: calls,
            ..setting
        }),
        _ => Err(Unmade::NoSuchLine),
    }
}

/// The end of a program: `process` or `power`.
pub(crate) fn end_of(word: &str) -> Result<End, Unmade> {
    match word {
        "process" => Ok(End::Process),
        "power" => Ok(End::Power),
        _ => Err(Unmade::NoSuchLine),
    }
}
