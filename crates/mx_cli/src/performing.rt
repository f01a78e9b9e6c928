//! What the words ask for: each does its job over a file, at a port or in memory, or prints a text.

use crate::serving::Served;
use mx_files::{
    answer_file, enter_file, import_file, init_file, init_old_file, list_file, migrate_file,
    programme_file, try_out, verify_file,
};
use mx_output::endings::{Ending, Stop};
use mx_output::explained::print_explanation;
use mx_words::Perform;
use mx_words::command_line::Words;

/// The jobs of the program.
#[derive(Clone, Copy)]
pub(crate) struct Jobs;

impl Perform for Jobs {
    fn perform(
        &self,
        rt: &HostRuntime,
        words: &Words<'_>,
        out: &mut Vec<u8>,
    ) -> Result<Ending, Stop> {
        match words {
            Words::Try(trial) => try_out(rt.alloc(), trial, out),
            Words::Init { file } => init_file(rt, file, out),
            Words::List { file, question } => list_file(rt, file, question, out),
            Words::Enter { file, entries } => enter_file(rt, file, entries, out),
            Words::Import { file, csv } => import_file(rt, file, csv, out),
            Words::Programme { file, doc, toml } => programme_file(rt, file, *doc, toml, out),
            Words::Serve { file, port, count } => {
                let (port, count) = (*port, *count);
                answer_file(rt, file, &Served { port, count }, out)
            }
            Words::Verify { file } => verify_file(rt, file, out),
            Words::Migrate { file, steps } => migrate_file(rt, file, *steps, out),
            Words::InitOld { file, entries } => init_old_file(rt, file, entries, out),
            Words::Explain { text } => print_explanation(out, text),
        }
    }
}
