//! How a task stands.
ghost use Rattle.std.specs.Prelude.{◌≡◌};
ghost use Rattle.mx_book.specs.due.Status.{status_by, status_in, worse, status_of};

use mx_base::{Left, Status, Tolerance};

/// The status in one dimension with so much left: `Ok` above 0, `Due` from 0 down to what is tolerated, `Overdue` below.
pub fn status_by(tolerance: u32, left: i64) -> Status
    ensures { result ≡ status_by tolerance left }
{
    if left > 0 {
        Status::Ok
    } else if left >= -i64::from(tolerance) {
        Status::Due
    } else {
        Status::Overdue
    }
}

// The status in a dimension that may have no due.
fn status_in(tolerance: u32, left: Option<i64>) -> Status
    ensures { result ≡ status_in tolerance left }
{
    match left {
        Some(left) => status_by(tolerance, left),
        None => Status::Ok,
    }
}

// The worse of two.
fn worse(a: Status, b: Status) -> Status
    ensures { result ≡ worse a b }
{
    match (a, b) {
        (Status::Ok, _) => b,
        (Status::Due, Status::Overdue) => Status::Overdue,
        (Status::Due, _) => Status::Due,
        (Status::Overdue, _) => Status::Overdue,
    }
}

/// The status with so much left: that of the worst dimension.
pub fn status_of(left: &Left, tolerance: &Tolerance) -> Status
    ensures { result ≡ status_of left.now tolerance.now }
{
    let minutes = status_in(tolerance.minutes, left.minutes);
    let cycles = status_in(tolerance.cycles, left.cycles);
    let days = status_in(tolerance.days, left.days);
    worse(minutes, worse(cycles, days))
}
