//! The words that the program takes and the values of each, as `clap` reads and explains them. A value may begin with `-`.
//!
//! `clap`'s clauses say what it finds as long as no value may begin with a hyphen, and all may here; so it is proved
//! which words there are, with their values in their order, and what the values that were found ask for. That `clap`
//! finds for each name the word that was typed, transcripts show.
ghost use Rattle.std.specs.Prelude.{◌≡◌, IfOk, codes, false, map};
ghost use Rattle.clap.specs.Words.{rule_of};
ghost use Rattle.mx_words.specs.command_line.CommandLine.{IsApp, IsWord, office, office_with_words, value_rule, word};

use crate::command_line::help;
use clap::{Arg, ArgAction, Command};
use std::alloc::{AllocError, Global};

// A value that a word takes as it is written, and has to have.
fn value<'a>(alloc: Global, name: &'a str, help: &'a str) -> Arg<'a>
    ensures rule { rule_of result ≡ value_rule name.entry.now }
    ensures local { result.global ≡ false }
{
    Arg::new(alloc, name)
        .required(true)
        .action(ArgAction::Set)
        .allow_hyphen_values(true)
        .help(help)
}

// A word with its values, in their order: the name of each, and what its help says.
fn new_word<'a>(
    alloc: Global,
    name: &'a str,
    about: &'a str,
    after_help: &'a str,
    values: &[(&'a str, &'a str)],
) -> Result<Command<'a>, AllocError>
    ensures { IfOk result (IsApp (word name.entry.now (map (λ v. v.0.now) values.now))) }
{
    let mut word = Command::new(alloc, name)
        .about(about)
        .after_help(after_help);
    for (name, help) in values {
        word = word.arg(value(alloc, name, help))?;
    }
    Ok(word)
}

fn try_command<'a>(alloc: Global) -> Result<Command<'a>, AllocError>
    ensures { IfOk result (IsWord (codes "try")) }
{
    new_word(
        alloc,
        "try",
        "Enters an aircraft and one sector into a store in memory, and prints the replies and the life",
        help::TRY,
        &[
            ("TAIL", help::TAIL),
            (
                "MINUTES",
                "The flight minutes that it comes with, at most 100000000",
            ),
            ("CYCLES", "The cycles that it comes with, at most 1000000"),
            ("OFF", "Take-off in UTC, YYYY-MM-DDTHH:MM"),
            ("ON", "Landing in UTC, YYYY-MM-DDTHH:MM"),
            ("SECTOR_CYCLES", "The cycles of the sector, 1 to 50"),
        ],
    )
}

fn init_command<'a>(alloc: Global) -> Result<Command<'a>, AllocError>
    ensures { IfOk result (IsWord (codes "init")) }
{
    new_word(
        alloc,
        "init",
        "Makes an empty book in a file",
        help::INIT,
        &[("FILE", help::FILE)],
    )
}

fn life_command<'a>(alloc: Global) -> Result<Command<'a>, AllocError>
    ensures { IfOk result (IsWord (codes "life")) }
{
    new_word(
        alloc,
        "life",
        "Prints the life of an aircraft, and of each component that is fitted to it",
        help::LIFE,
        &[("FILE", help::FILE), ("TAIL", help::TAIL)],
    )
}

fn due_command<'a>(alloc: Global) -> Result<Command<'a>, AllocError>
    ensures { IfOk result (IsWord (codes "due")) }
{
    new_word(
        alloc,
        "due",
        "Prints what is due on an aircraft, and what is left until then on a day",
        help::DUE,
        &[
            ("FILE", help::FILE),
            ("TAIL", help::TAIL),
            ("DAY", help::DAY),
        ],
    )
}

fn forecast_command<'a>(alloc: Global) -> Result<Command<'a>, AllocError>
    ensures { IfOk result (IsWord (codes "forecast")) }
{
    new_word(
        alloc,
        "forecast",
        "Prints what will be due on an aircraft, and when, at the rate that it is flown",
        help::FORECAST,
        &[
            ("FILE", help::FILE),
            ("TAIL", help::TAIL),
            ("DAY", help::DAY_AHEAD),
            ("DAYS", help::DAYS),
            ("MINUTES", help::MINUTES),
            ("CYCLES", help::CYCLES),
        ],
    )
}

fn limits_command<'a>(alloc: Global) -> Result<Command<'a>, AllocError>
    ensures { IfOk result (IsWord (codes "limits")) }
{
    new_word(
        alloc,
        "limits",
        "Prints the last day of each open defect of an aircraft, and what is left until then on a day",
        help::LIMITS,
        &[
            ("FILE", help::FILE),
            ("TAIL", help::TAIL),
            ("DAY", help::DAY),
        ],
    )
}

fn enter_command<'a>(alloc: Global) -> Result<Command<'a>, AllocError>
    ensures { IfOk result (IsWord (codes "enter")) }
{
    new_word(
        alloc,
        "enter",
        "Enters the commands of a file, and prints a reply for each",
        help::ENTER,
        &[
            ("FILE", help::FILE),
            ("ENTRIES", "The file of commands, a list in JSON"),
        ],
    )
}

fn import_command<'a>(alloc: Global) -> Result<Command<'a>, AllocError>
    ensures { IfOk result (IsWord (codes "import")) }
{
    new_word(
        alloc,
        "import",
        "Enters the sectors of a log, and prints a reply or a fault for each row",
        help::IMPORT,
        &[
            ("FILE", help::FILE),
            ("CSV", "The file of the sector log, in CSV"),
        ],
    )
}

fn programme_command<'a>(alloc: Global) -> Result<Command<'a>, AllocError>
    ensures { IfOk result (IsWord (codes "programme")) }
{
    new_word(
        alloc,
        "programme",
        "Enters the maintenance programme of a file by a document, and prints the reply",
        help::PROGRAMME,
        &[
            ("FILE", help::FILE),
            (
                "DOC",
                "The document that it is entered by, 1 to 40 characters without a space",
            ),
            ("TOML", "The file of the programme, in TOML"),
        ],
    )
}

fn serve_command<'a>(alloc: Global) -> Result<Command<'a>, AllocError>
    ensures { IfOk result (IsWord (codes "serve")) }
{
    new_word(
        alloc,
        "serve",
        "Answers requests over HTTP at a port of this machine alone, one connection after the other",
        help::SERVE,
        &[
            ("FILE", help::FILE),
            ("PORT", "The port of the loopback, 1 to 65535"),
            ("COUNT", "The connections to serve, 1 to 1000000"),
        ],
    )
}

fn verify_command<'a>(alloc: Global) -> Result<Command<'a>, AllocError>
    ensures { IfOk result (IsWord (codes "verify")) }
{
    new_word(
        alloc,
        "verify",
        "Reads a file whole, and prints whether its tables are those of a book",
        help::VERIFY,
        &[("FILE", help::FILE)],
    )
}

fn migrate_command<'a>(alloc: Global) -> Result<Command<'a>, AllocError>
    ensures { IfOk result (IsWord (codes "migrate")) }
{
    new_word(
        alloc,
        "migrate",
        "Moves a file of an older layout on to the newest, and prints the point that it is at",
        help::MIGRATE,
        &[
            ("FILE", help::FILE),
            ("STEPS", "The most commits that are made, 0 to 2000000"),
        ],
    )
}

fn init_old_command<'a>(alloc: Global) -> Result<Command<'a>, AllocError>
    ensures { IfOk result (IsWord (codes "init-old")) }
{
    new_word(
        alloc,
        "init-old",
        "Makes a file of the oldest layout with the commands of a file in it, and prints a reply for each",
        help::INIT_OLD,
        &[
            ("FILE", help::FILE),
            ("ENTRIES", "The file of commands, a list in JSON"),
        ],
    )
}

fn fleet_command<'a>(alloc: Global) -> Result<Command<'a>, AllocError>
    ensures { IfOk result (IsWord (codes "fleet")) }
{
    new_word(
        alloc,
        "fleet",
        "Prints what is due on all aircraft, and what is left until then on a day",
        help::FLEET,
        &[("FILE", help::FILE), ("DAY", help::DAY)],
    )
}

fn outlook_command<'a>(alloc: Global) -> Result<Command<'a>, AllocError>
    ensures { IfOk result (IsWord (codes "outlook")) }
{
    new_word(
        alloc,
        "outlook",
        "Prints what will be due on all aircraft, and when, at one rate for all",
        help::OUTLOOK,
        &[
            ("FILE", help::FILE),
            ("DAY", help::DAY_AHEAD),
            ("DAYS", help::DAYS),
            ("MINUTES", help::MINUTES),
            ("CYCLES", help::CYCLES),
        ],
    )
}

fn aircraft_command<'a>(alloc: Global) -> Result<Command<'a>, AllocError>
    ensures { IfOk result (IsWord (codes "aircraft")) }
{
    new_word(
        alloc,
        "aircraft",
        "Prints all aircraft, with the life of each, its components and open defects",
        help::AIRCRAFT,
        &[("FILE", help::FILE)],
    )
}

fn components_command<'a>(alloc: Global) -> Result<Command<'a>, AllocError>
    ensures { IfOk result (IsWord (codes "components")) }
{
    new_word(
        alloc,
        "components",
        "Prints all components, with the life of each, and where it is fitted",
        help::COMPONENTS,
        &[("FILE", help::FILE)],
    )
}

fn deferred_command<'a>(alloc: Global) -> Result<Command<'a>, AllocError>
    ensures { IfOk result (IsWord (codes "deferred")) }
{
    new_word(
        alloc,
        "deferred",
        "Prints the last day of each open defect of all aircraft, and what is left until then on a day",
        help::DEFERRED,
        &[("FILE", help::FILE), ("DAY", help::DAY)],
    )
}

fn explain_command<'a>(alloc: Global) -> Result<Command<'a>, AllocError>
    ensures { IfOk result (IsWord (codes "explain")) }
{
    new_word(
        alloc,
        "explain",
        "Prints what a refusal or a fault means, and what to do about it",
        help::EXPLAIN,
        &[(
            "WHAT",
            "What stands behind `refused` or `fault`, a number or a word",
        )],
    )
}

// The program without its words.
fn office_command<'a>(alloc: Global) -> Result<Command<'a>, AllocError>
    ensures { IfOk result (IsApp office) }
{
    Ok(
        Command::new(alloc, "office")
            .bin_name("office")?
            .version("0.2")
            .override_help(help::OFFICE)
            .subcommand_required(true),
    )
}

/// The command line of the program.
pub fn command<'a>(alloc: Global) -> Result<Command<'a>, AllocError>
    ensures { IfOk result (IsApp office_with_words) }
{
    office_command(alloc)?
        .subcommand(try_command(alloc)?)?
        .subcommand(init_command(alloc)?)?
        .subcommand(life_command(alloc)?)?
        .subcommand(due_command(alloc)?)?
        .subcommand(forecast_command(alloc)?)?
        .subcommand(limits_command(alloc)?)?
        .subcommand(enter_command(alloc)?)?
        .subcommand(import_command(alloc)?)?
        .subcommand(programme_command(alloc)?)?
        .subcommand(serve_command(alloc)?)?
        .subcommand(verify_command(alloc)?)?
        .subcommand(migrate_command(alloc)?)?
        .subcommand(init_old_command(alloc)?)?
        .subcommand(explain_command(alloc)?)?
        .subcommand(fleet_command(alloc)?)?
        .subcommand(outlook_command(alloc)?)?
        .subcommand(aircraft_command(alloc)?)?
        .subcommand(components_command(alloc)?)?
        .subcommand(deferred_command(alloc)?)
}
