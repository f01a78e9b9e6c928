//! `try`: an aircraft and one sector, entered into a store in memory.
ghost use Rattle.std.specs.Prelude.{◌≡◌, ◌≢◌, ◌↔◌, [], true, false, IfOk, IfErr, OnOk};
ghost use Rattle.mx_words.specs.command_line.Trial.{is_trial_shaped, trial_commands};
ghost use Rattle.mx_output.specs.endings.Status.{stop_status};
ghost use Rattle.mx_output.specs.printed.Tried.{TellsTrial};

use crate::trying::try_in_memory;
use mx_book::commands::MakeFault;
use mx_output::endings::{Ending, Stop};
use mx_words::command_line::{Trial, trial_commands};
use std::alloc::Global;

// Why a trial has no commands.
fn stop_of(fault: MakeFault) -> Stop
    ensures shape { (result ≡ Stop.Shape) ↔ (fault ≡ MakeFault.BadShape) }
    ensures memory { (result ≡ Stop.MakeMemory) ↔ (fault ≡ MakeFault.Memory) }
{
    match fault {
        MakeFault::Memory => Stop::MakeMemory,
        MakeFault::BadShape => Stop::Shape,
    }
}

/// Enters an aircraft and one sector into a store in memory, and appends the replies and the life.
/// Both commands are made before the first is entered.
pub fn try_out(alloc: Global, trial: &Trial, out: &mut Vec<u8>) -> Result<Ending, Stop>
    ensures shaped { OnOk result (is_trial_shaped trial.now ≡ true) }
    ensures exact { IfOk result (TellsTrial [] (trial_commands trial.now) trial.now.tail
        out.old.items out.new.items) }
    ensures shape { result ≡ Err Stop.Shape → (is_trial_shaped trial.now ≡ false)
        × (out.new ≡ out.old) }
    ensures words { result ≢ Err Stop.Words }
    ensures status { IfErr result (λ stop. stop_status stop ≢ 3) }
{
    match trial_commands(alloc, trial) {
        Ok(commands) => try_in_memory(alloc, commands.as_slice(), &trial.tail, out),
        Err(fault) => Err(stop_of(fault)),
    }
}
