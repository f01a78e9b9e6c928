//! Plays files of cases over an office on disks in memory. The arguments are names of files of cases, whose lines
//! `mx_test_sweeps` plays; where the first is `--again`, a line that a fault stopped is played once more.
#![tactic(auto)]

use std::process::ExitCode;

fn main(rt: HostRuntime) -> ExitCode {
    ExitCode::from(mx_test_disks::play(&rt))
}
