//! A sweep: one file is stopped at each of its calls in turn, until the work ends without a stop; and what is said
//! of the stops. What it does and looks at are lines of the player.
//!
//! What is looked at behind a stop depends on nothing but what is known of the work and what the files hold. So where both
//! are as they were behind the stop before, as behind a call that only reads, it is not looked at again.

use crate::player::Player;
use mx_book::commands::Command;
use mx_test_cases::{AnswerText, Disks, Held, Wrong, append_joined, must, wrong_text};
use std::alloc::Global;

/// The number of calls past which the work is to end.
const MOST_CALLS: u64 = 10_000;

/// How a program ends that was stopped.
#[derive(Clone, Copy)]
pub(crate) enum End {
    /// Its process ends: the files stay as they are.
    Process,
    /// The power is lost: the files hold what was synced.
    Power,
}

/// The answers to lines, joined by ` / `.
pub(crate) fn answers<D: Disks>(
    alloc: Global,
    player: &mut Player<D>,
    lines: &[&str],
) -> AnswerText {
    let mut text = String::new(alloc);
    for line in lines {
        append_joined(&mut text, player.line(line)?.as_str())?;
    }
    Ok(text)
}

/// All entries of the open office.
pub(crate) fn all_entries<D: Disks>(player: &mut Player<D>) -> Result<Vec<Command>, Wrong> {
    let text = player.line("entries 1 4294967295")?;
    must(
        !text.starts_with("fault "),
        "an office whose entries are not read",
    )?;
    Ok(player.take_entries())
}

/// Work over files of which one stops.
pub(crate) trait Stops {
    /// What is known where the work ended or was stopped.
    type Known: Copy + PartialEq + Drop;

    /// Does the work over files of which one stops after so many calls.
    fn work<D: Disks>(&mut self, player: &mut Player<D>, calls: u64) -> Result<Self::Known, Wrong>;

    /// Whether the work was stopped.
    fn is_stopped(&self, known: Self::Known) -> bool;

    /// Looks at what the work left, whose program has ended.
    fn look<D: Disks>(&mut self, player: &mut Player<D>, known: Self::Known) -> Result<(), Wrong>;

    /// What is answered where every stop left what it must, or what no stop has shown.
    fn verdict(&self) -> Result<&'static str, Wrong>;
}

// What was looked at behind the last stop at which a program ended in one way.
#[derive(Drop)]
struct Seen<K> {
    known: K,
    held: Held,
}

// What is wrong with a stop.
fn amiss_text(alloc: Global, calls: u64, end: End, wrong: Wrong) -> AnswerText {
    let when = match end {
        End::Process => "after the process ended",
        End::Power => "after the power was lost",
    };
    match wrong {
        Wrong::Unmade(error) => Err(error),
        Wrong::Found(what) => {
            Ok(format!(in alloc; "the stop after {calls} calls, {when}: {what}")?)
        }
    }
}

// What all stops show.
fn ended_text<W: Stops>(alloc: Global, work: &W, stops: u64, at_least: u64) -> AnswerText {
    if stops < at_least {
        return Ok(format!(in alloc; "fewer than {at_least} stops")?);
    }
    match work.verdict() {
        Ok(what) => Ok(String::from_str(alloc, what)?),
        Err(wrong) => wrong_text(alloc, wrong),
    }
}

// Looks at what files hold whose program has ended, unless it was seen behind the stop before.
fn look_anew<W: Stops, D: Disks>(
    player: &mut Player<D>,
    work: &mut W,
    known: W::Known,
    seen: &mut Option<Seen<W::Known>>,
) -> Result<(), Wrong> {
    let held = player.held()?;
    if let Some(before) = seen
        && before.known == known
        && before.held == held
    {
        return Ok(());
    }
    *seen = Some(Seen { known, held });
    work.look(player, known)
}

// What was seen behind the stop before, by how the program ended.
#[derive(Drop)]
struct SeenBefore<K> {
    process: Option<Seen<K>>,
    power: Option<Seen<K>>,
}

// Looks at what a stop left where the program ends in this way. Its files are then those that its process left, or what
// was synced of them: so the loss of power comes last.
fn look_behind<W: Stops, D: Disks>(
    player: &mut Player<D>,
    work: &mut W,
    known: W::Known,
    end: End,
    seen: &mut SeenBefore<W::Known>,
) -> Result<(), Wrong> {
    match end {
        End::Process => {
            player.set_aside()?;
            look_anew(player, work, known, &mut seen.process)?;
            player.take_back();
            Ok(())
        }
        End::Power => {
            player.stop(End::Power)?;
            look_anew(player, work, known, &mut seen.power)
        }
    }
}

/// Stops a file at each of its calls in turn, until the work ends without a stop, and ends the program in each of these
/// ways, the loss of power last: what is answered where all stops left what they must and there were at least so many, and
/// else the first that did not, and what it left.
pub(crate) fn swept<W: Stops, D: Disks>(
    alloc: Global,
    player: &mut Player<D>,
    work: &mut W,
    ends: &[End],
    at_least: u64,
) -> AnswerText {
    let mut seen = SeenBefore {
        process: None,
        power: None,
    };
    for calls in 0..MOST_CALLS {
        let known = match work.work(player, calls) {
            Ok(known) => known,
            Err(wrong) => return amiss_text(alloc, calls, End::Process, wrong),
        };
        player.stop(End::Process)?;
        for end in ends {
            if let Err(wrong) = look_behind(player, work, known, *end, &mut seen) {
                return amiss_text(alloc, calls, *end, wrong);
            }
        }
        if !work.is_stopped(known) {
            return ended_text(alloc, work, calls, at_least);
        }
    }
    Ok(String::from_str(alloc, "every run was stopped")?)
}
