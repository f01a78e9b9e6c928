//! The sweeps, by their words.

use crate::doubts::Doubts;
use crate::handing::{Handing, whole_import};
use crate::plain::Plain;
use crate::player::Player;
use crate::settings::end_of;
use crate::stops_of_commands::{CommandStops, plain_of};
use crate::stops_of_line::{LineStops, calls_of_opening, seen_around};
use crate::stops_of_making::MakingStops;
use crate::stops_of_settling::{SettlingStops, asked_once};
use crate::sweep::{End, swept};
use mx_test_cases::{AnswerText, Disks, Unmade, Wrong, wrong_text};
use std::alloc::Global;

const BOTH_ENDS: [End; 2] = [End::Process, End::Power];

fn stops_of_making<D: Disks>(
    alloc: Global,
    player: &mut Player<D>,
    file: &str,
    at_least: &str,
) -> AnswerText {
    let at_least = at_least.parse::<u64>()?;
    let mut stops = MakingStops { alloc, file };
    swept(alloc, player, &mut stops, &BOTH_ENDS, at_least)
}

// The stops of the commands of the list, which are handed in so.
fn stops_of_handing<D: Disks>(
    alloc: Global,
    player: &mut Player<D>,
    (file, pages, at_least): (&str, &str, &str),
    begun: Result<(Plain, Handing), Wrong>,
) -> AnswerText {
    let at_least = at_least.parse::<u64>()?;
    match begun {
        Ok((plain, handing)) => {
            let mut stops = CommandStops {
                alloc,
                plain,
                handing,
                file,
                pages,
            };
            swept(alloc, player, &mut stops, &BOTH_ENDS, at_least)
        }
        Err(wrong) => wrong_text(alloc, wrong),
    }
}

// What the plain book gives, for a list that is run.
fn begin_run<D: Disks>(alloc: Global, player: &mut Player<D>) -> Result<(Plain, Handing), Wrong> {
    Ok((plain_of(alloc, player)?, Handing::Run))
}

// What the plain book gives, for a log that is imported.
fn begin_import<D: Disks>(
    alloc: Global,
    player: &mut Player<D>,
) -> Result<(Plain, Handing), Wrong> {
    let plain = plain_of(alloc, player)?;
    Ok((plain, whole_import(player)?))
}

fn stops_of_line<D: Disks>(
    alloc: Global,
    player: &mut Player<D>,
    (file, pages, at_least): (&str, &str, &str),
    is_one_commit: bool,
    words: &[&str],
) -> AnswerText {
    let at_least = at_least.parse::<u64>()?;
    let opening = calls_of_opening(player, file, pages)?;
    let whole = seen_around(player, words)?;
    let mut stops = LineStops {
        words,
        file,
        pages,
        opening,
        whole,
        is_one_commit,
        undone: 0,
        between: 0,
        done: 0,
    };
    swept(alloc, player, &mut stops, &BOTH_ENDS, at_least)
}

fn stops_of_settling<D: Disks>(
    alloc: Global,
    player: &mut Player<D>,
    (file, pages, at_least): (&str, &str, &str),
    commits: &str,
    question: &[&str],
) -> AnswerText {
    let at_least = at_least.parse::<u64>()?;
    let point = player.answer(&["step", "settle", commits])?;
    let wanted = asked_once(player, question)?;
    let mut stops = SettlingStops {
        commits,
        question,
        file,
        pages,
        point,
        wanted,
    };
    swept(alloc, player, &mut stops, &BOTH_ENDS, at_least)
}

fn doubts<D: Disks>(
    alloc: Global,
    player: &mut Player<D>,
    end: &str,
    at_least: &str,
) -> AnswerText {
    let end = end_of(end)?;
    let at_least = at_least.parse::<u64>()?;
    match plain_of(alloc, player) {
        Ok(plain) => {
            let mut work = Doubts {
                alloc,
                plain,
                end,
                lost: 0,
                kept: 0,
            };
            swept(alloc, player, &mut work, &[end], at_least)
        }
        Err(wrong) => wrong_text(alloc, wrong),
    }
}

// Plays a sweep over files and a list that it may change.
fn played<D: Disks>(alloc: Global, player: &mut Player<D>, words: &[&str]) -> AnswerText {
    match words {
        ["stops-of-making", file, at_least] => stops_of_making(alloc, player, file, at_least),
        ["stops-of-commands", file, "pages", pages, at_least] => {
            let begun = begin_run(alloc, player);
            stops_of_handing(alloc, player, (*file, *pages, *at_least), begun)
        }
        ["stops-of-entering", file, "pages", pages, at_least] => {
            let begun = begin_import(alloc, player);
            stops_of_handing(alloc, player, (*file, *pages, *at_least), begun)
        }
        ["stops-of-line", file, "pages", pages, at_least, line @ ..] => stops_of_line(
            alloc,
            player,
            (*file, *pages, *at_least),
            true,
            line,
        ),
        [
            "stops-of-commits",
            file,
            "pages",
            pages,
            at_least,
            line @ ..,
        ] => stops_of_line(alloc, player, (*file, *pages, *at_least), false, line),
        [
            "stops-of-settling",
            file,
            "pages",
            pages,
            at_least,
            commits,
            question @ ..,
        ] => stops_of_settling(alloc, player, (*file, *pages, *at_least), commits, question),
        ["doubts", end, at_least] => doubts(alloc, player, end, at_least),
        _ => Err(Unmade::NoSuchLine),
    }
}

/// Whether the words are those of a sweep.
pub(crate) fn is_sweep(words: &[&str]) -> bool {
    matches!(
        words,
        [
            "stops-of-making"
                | "stops-of-commands"
                | "stops-of-entering"
                | "stops-of-line"
                | "stops-of-commits"
                | "stops-of-settling"
                | "doubts",
            ..
        ]
    )
}

/// What a sweep is answered. AT_LEAST is how many stops there must be:
/// - `stops-of-making FILE AT_LEAST`: the making of a file;
/// - `stops-of-commands FILE pages PAGES AT_LEAST`: the list of commands is handed in to the office that the files hold;
/// - `stops-of-entering FILE pages PAGES AT_LEAST`: the same, where one import of the text hands them in, a sector log;
/// - `stops-of-line FILE pages PAGES AT_LEAST LINE`: a line that changes the tables of the files, in one commit;
/// - `stops-of-commits FILE pages PAGES AT_LEAST LINE`: one that makes several commits;
/// - `stops-of-settling FILE pages PAGES AT_LEAST COMMITS QUESTION`: the files are moved by so many commits, and the office that is
///   opened behind each stop is asked;
/// - `doubts END AT_LEAST`: the first command of the list, which is handed in again behind each stop.
///
/// It plays its lines over copies, so that the player stays as it is.
pub(crate) fn answer_of_sweep<D: Disks>(
    alloc: Global,
    player: &Player<D>,
    words: &[&str],
) -> AnswerText {
    let mut trial = player.trial()?;
    let answer = played(alloc, &mut trial, words);
    trial.let_go();
    answer
}
