//! What a run answers, and the faults of the office that those of the tables and of a move are.
ghost use Rattle.std.specs.Prelude.{◌≡◌, ◌↔◌, IsTrue, Some};
ghost use Rattle.mx_office.specs.Calls.{stop_asking, stop_in};
ghost use Rattle.mx_office.specs.Faults.{call_answer, fault_from, moved_fault_from, open_fault_from, question_answer};

use mx_book::{Refusal, Reply};
use mx_faults::{Ask, Fault, MoveFault, OpenFault};
use mx_layout::{Table, TableFault};

/// What a run answered, and what stopped it.
#[derive(Drop)]
pub struct Outcomes {
    /// The replies to the first commands, in their order.
    pub replies: Vec<Reply>,
    /// What stopped the run before the next command, if anything did.
    pub stopped: Option<Fault>,
}

/// The fault of the office that a fault of the tables is.
pub(crate) fn fault_of(fault: TableFault) -> Fault
    ensures { result ≡ fault_from fault }
{
    match fault {
        TableFault::Memory => Fault::Memory,
        TableFault::Damaged(table) => Fault::Damaged(table),
        TableFault::Store | TableFault::NotOurs | TableFault::Exists => Fault::Store,
    }
}

/// Why no office was opened, where the point could not be read.
pub(crate) fn open_fault_of(fault: TableFault) -> OpenFault
    ensures { result ≡ open_fault_from fault }
{
    match fault {
        TableFault::Memory => OpenFault::Memory,
        TableFault::NotOurs => OpenFault::NotOurs,
        TableFault::Damaged(table) => OpenFault::Damaged(table),
        TableFault::Store | TableFault::Exists => OpenFault::Store,
    }
}

/// Why no office was opened, where this stopped the move of its file. The point was read before, so `office` was there and its
/// layout none that is newer: what finds it otherwise finds it damaged.
pub(crate) fn moved_fault_of(fault: MoveFault) -> OpenFault
    ensures { result ≡ moved_fault_from fault }
{
    match fault {
        MoveFault::Memory => OpenFault::Memory,
        MoveFault::Store => OpenFault::Store,
        MoveFault::Damaged(table) => OpenFault::Damaged(table),
        MoveFault::NotOurs | MoveFault::NewerLayout(_) => OpenFault::Damaged(Table::Office),
    }
}

/// What a call answers, of what was looked up or applied.
pub(crate) fn call_answer<T>(found: Result<T, TableFault>) -> Result<T, Fault>
    ensures { result ≡ call_answer found }
{
    match found {
        Ok(value) => Ok(value),
        Err(fault) => Err(fault_of(fault)),
    }
}

/// What a question is answered, of what was looked up.
pub(crate) fn question_answer<T>(found: Result<Result<T, Refusal>, TableFault>) -> Result<T, Ask>
    ensures { result ≡ question_answer found }
{
    match found {
        Ok(Ok(value)) => Ok(value),
        Ok(Err(refusal)) => Err(Ask::Refused(refusal)),
        Err(fault) => Err(Ask::Failed(fault_of(fault))),
    }
}

/// Whether the store stopped a call.
pub(crate) fn call_failed<T>(answer: &Result<T, Fault>) -> bool
    ensures { IsTrue result ↔ (stop_in answer.now ≡ Some Fault.Store) }
{
    matches!(answer, Err(Fault::Store))
}

/// Whether the store stopped a question.
pub(crate) fn question_failed<T>(answer: &Result<T, Ask>) -> bool
    ensures { IsTrue result ↔ (stop_asking answer.now ≡ Some Fault.Store) }
{
    matches!(answer, Err(Ask::Failed(Fault::Store)))
}
