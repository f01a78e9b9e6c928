//! What the words of the command line ask for, from what `clap` found. Every value is taken as it is written, and read by the
//! readers of the office; what can't be read asks for nothing.
//!
//! One function makes each word from the list of its values: a chain of calls for each word cost the checker minutes.
ghost use Rattle.std.specs.Prelude.{◌≡◌};
ghost use Rattle.std.specs.Char.{is_ascii_digit};
ghost use Rattle.std.specs.List.{list_all};
ghost use Rattle.std.specs.Option.{option_map};
ghost use Rattle.clap.specs.Words.{first_of};
ghost use Rattle.mx_words.specs.command_line.Number.{number_in};
ghost use Rattle.mx_words.specs.command_line.Job.{asking, asking_forecast, asking_of_one, asking_on_a_day, asking_outlook, doc_at, explaining};
ghost use Rattle.mx_words.specs.command_line.Job.{job_beside, job_of, job_over, job_said, loading};
ghost use Rattle.mx_words.specs.command_line.Job.{moment_at, moving, number_at, number_within, said};
ghost use Rattle.mx_words.specs.command_line.Job.{serving, tail_at, trying, values_of};

use crate::command_line::trial::Trial;
use clap::ArgMatches;
use mx_base::{Doc, Moment, Tail};
use mx_intake::{read_identifier, read_moment};
use mx_lists::Question;
use mx_output::explained::explanation;
use mx_output::questions::{
    deferred_question, due_question, fleet_question, forecast_question, life_question,
    limits_question, outlook_question,
};

/// The greatest port.
const MOST_PORT: u32 = 65_535;

/// The most connections that are served.
const MOST_CONNECTIONS: u32 = 1_000_000;

/// The most commits of a move that are made.
const MOST_STEPS: u32 = 2_000_000;

/// What the program is asked to do.
#[derive(Drop)]
pub enum Words<'a> {
    /// An aircraft and a sector are tried.
    Try(Trial),
    /// An empty book is made in a file.
    Init {
        file: &'a str,
    },
    /// A list is asked of the office in a file.
    List {
        file: &'a str,
        question: Question,
    },
    /// The commands of a file are entered into another.
    Enter {
        file: &'a str,
        entries: &'a str,
    },
    /// The sector log of a file is imported into another.
    Import {
        file: &'a str,
        csv: &'a str,
    },
    /// The maintenance programme of a file is entered into another by a document.
    Programme {
        file: &'a str,
        doc: Doc,
        toml: &'a str,
    },
    /// So many connections are served at a port with the office in a file.
    Serve {
        file: &'a str,
        port: u16,
        count: u32,
    },
    /// It is told whether the tables of a file are those of a book.
    Verify {
        file: &'a str,
    },
    /// A file is moved to the newest layout, by at most so many commits.
    Migrate {
        file: &'a str,
        steps: u32,
    },
    /// A book of the commands of a file is made in another, in the oldest layout.
    InitOld {
        file: &'a str,
        entries: &'a str,
    },
    /// A refusal or a fault is explained, by the text that is printed.
    Explain {
        text: &'a str,
    },
}

// The first value of a name.
fn value_of<'a>(values: &ArgMatches<'a>, name: &str) -> Option<&'a str>
    ensures { option_map (λ s. s.now) result ≡ first_of name.now (values_of values.now) }
{
    values.get_str(name)
}

fn has_digits_alone(text: &str) -> bool
    ensures { result ≡ list_all is_ascii_digit text.now }
{
    text.bytes().all(|byte| byte.is_ascii_digit())
}

// The number that a text writes in digits alone, where 32 bits hold it.
fn number(text: &str) -> Option<u32>
    ensures { result ≡ number_in text.now }
{
    if !has_digits_alone(text) {
        return None;
    }
    text.parse::<u32>().ok()
}

fn number_at(values: &ArgMatches<'_>, name: &str) -> Option<u32>
    ensures { result ≡ number_at name.now (values_of values.now) }
{
    number(value_of(values, name)?)
}

// The number of a name, where it is from the least to the greatest.
fn number_within(values: &ArgMatches<'_>, name: &str, least: u32, most: u32) -> Option<u32>
    ensures { result ≡ number_within least most name.now (values_of values.now) }
{
    let number = number_at(values, name)?;
    if least <= number && number <= most {
        Some(number)
    } else {
        None
    }
}

fn tail_at(values: &ArgMatches<'_>) -> Option<Tail>
    ensures { result ≡ tail_at (values_of values.now) }
{
    read_identifier(value_of(values, "TAIL")?)
}

fn moment_at(values: &ArgMatches<'_>, name: &str) -> Option<Moment>
    ensures { result ≡ moment_at name.now (values_of values.now) }
{
    read_moment(value_of(values, name)?)
}

fn doc_at(values: &ArgMatches<'_>) -> Option<Doc>
    ensures { result ≡ doc_at (values_of values.now) }
{
    read_identifier(value_of(values, "DOC")?)
}

fn trial_of(values: &ArgMatches<'_>) -> Option<Trial>
    ensures { result ≡ trying (values_of values.now) }
{
    Some(Trial {
        tail: tail_at(values)?,
        minutes: number_at(values, "MINUTES")?,
        cycles: number_at(values, "CYCLES")?,
        off: moment_at(values, "OFF")?,
        on: moment_at(values, "ON")?,
        sector_cycles: number_at(values, "SECTOR_CYCLES")?,
    })
}

fn forecast_at(tail: &str, day: &str, values: &ArgMatches<'_>) -> Option<Question>
    ensures { result ≡ asking_forecast tail.now day.now (values_of values.now) }
{
    let days = number_at(values, "DAYS")?;
    let minutes = number_at(values, "MINUTES")?;
    let cycles = number_at(values, "CYCLES")?;
    forecast_question(tail, day, days, minutes, cycles)
}

// The question that a word for a list on a day asks.
fn question_on_day(word: &str, tail: &str, day: &str, values: &ArgMatches<'_>) -> Option<Question>
    ensures { result ≡ asking_on_a_day word.now tail.now day.now (values_of values.now) }
{
    match word {
        "due" => due_question(tail, day),
        "limits" => limits_question(tail, day),
        "forecast" => forecast_at(tail, day, values),
        _ => None,
    }
}

fn outlook_at(day: &str, values: &ArgMatches<'_>) -> Option<Question>
    ensures { result ≡ asking_outlook day.now (values_of values.now) }
{
    let days = number_at(values, "DAYS")?;
    let minutes = number_at(values, "MINUTES")?;
    let cycles = number_at(values, "CYCLES")?;
    outlook_question(day, days, minutes, cycles)
}

// The question that a word for a list asks.
fn question_of(word: &str, values: &ArgMatches<'_>) -> Option<Question>
    ensures { result ≡ asking word.now (values_of values.now) }
{
    match word {
        "aircraft" => Some(Question::Aircraft),
        "components" => Some(Question::Components),
        "fleet" => fleet_question(value_of(values, "DAY")?),
        "deferred" => deferred_question(value_of(values, "DAY")?),
        "outlook" => outlook_at(value_of(values, "DAY")?, values),
        _ => question_of_one(word, values),
    }
}

// The question that a word for a list of an aircraft asks.
fn question_of_one(word: &str, values: &ArgMatches<'_>) -> Option<Question>
    ensures { result ≡ asking_of_one word.now (values_of values.now) }
{
    let tail = value_of(values, "TAIL")?;
    match word {
        "life" => life_question(tail),
        _ => question_on_day(word, tail, value_of(values, "DAY")?, values),
    }
}

// The programme that is entered into a file, and the document that it is entered by.
fn programme_of<'a>(file: &'a str, values: &ArgMatches<'a>) -> Option<Words<'a>>
    ensures { option_map job_of result ≡ loading file.entry.now (values_of values.now) }
{
    let doc = doc_at(values)?;
    let toml = value_of(values, "TOML")?;
    Some(Words::Programme { file, doc, toml })
}

// What is served at which port, and how often.
fn serving_of<'a>(file: &'a str, values: &ArgMatches<'a>) -> Option<Words<'a>>
    ensures { option_map job_of result ≡ serving file.entry.now (values_of values.now) }
{
    let port = number_within(values, "PORT", 1, MOST_PORT)?;
    let count = number_within(values, "COUNT", 1, MOST_CONNECTIONS)?;
    Some(Words::Serve {
        file,
        port: port as u16,
        count,
    })
}

// What is moved to the newest layout, and by at most how many commits.
fn moving_of<'a>(file: &'a str, values: &ArgMatches<'a>) -> Option<Words<'a>>
    ensures { option_map job_of result ≡ moving file.entry.now (values_of values.now) }
{
    let steps = number_within(values, "STEPS", 0, MOST_STEPS)?;
    Some(Words::Migrate { file, steps })
}

// The explanation that is asked for.
fn explaining_of<'a>(values: &ArgMatches<'a>) -> Option<Words<'a>>
    ensures { option_map job_of result ≡ explaining (values_of values.now) }
{
    let text = explanation(value_of(values, "WHAT")?)?;
    Some(Words::Explain { text })
}

// What a word asks for that looks after a file itself, or for a list.
fn words_beside<'a>(word: &str, file: &'a str, values: &ArgMatches<'a>) -> Option<Words<'a>>
    ensures { option_map job_of result ≡ job_beside word.now file.entry.now (values_of values.now) }
{
    match word {
        "verify" => Some(Words::Verify { file }),
        "migrate" => moving_of(file, values),
        "init-old" => {
            let entries = value_of(values, "ENTRIES")?;
            Some(Words::InitOld { file, entries })
        }
        list => {
            let question = question_of(list, values)?;
            Some(Words::List { file, question })
        }
    }
}

// What a word over a file asks for.
fn words_over<'a>(word: &str, file: &'a str, values: &ArgMatches<'a>) -> Option<Words<'a>>
    ensures { option_map job_of result ≡ job_over word.now file.entry.now (values_of values.now) }
{
    match word {
        "init" => Some(Words::Init { file }),
        "enter" => {
            let entries = value_of(values, "ENTRIES")?;
            Some(Words::Enter { file, entries })
        }
        "import" => {
            let csv = value_of(values, "CSV")?;
            Some(Words::Import { file, csv })
        }
        "programme" => programme_of(file, values),
        "serve" => serving_of(file, values),
        other => words_beside(other, file, values),
    }
}

// What a word with its values asks for.
fn words_by<'a>(word: &str, values: &ArgMatches<'a>) -> Option<Words<'a>>
    ensures { option_map job_of result ≡ job_said (word.now, values_of values.now) }
{
    match word {
        "try" => {
            let trial = trial_of(values)?;
            Some(Words::Try(trial))
        }
        "explain" => explaining_of(values),
        _ => words_over(word, value_of(values, "FILE")?, values),
    }
}

/// What the words ask for, or `None` where one of them can't be read.
pub fn words_of<'a>(matches: &ArgMatches<'a>) -> Option<Words<'a>>
    ensures { option_map job_of result ≡ said matches.now }
{
    let (word, values) = matches.subcommand()?;
    words_by(word, values)
}
