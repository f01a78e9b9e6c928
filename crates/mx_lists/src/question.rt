//! Questions for a list of an aircraft, or of all.
ghost use Rattle.std.specs.Prelude.{◌≡◌};
ghost use Rattle.std.specs.Option.{option_map};
ghost use Rattle.mx_lists.specs.Report.{tail_asked};

use mx_base::{Day, Tail};

/// A question for a list of an aircraft, or of all.
#[derive(Clone, Copy)]
pub enum Question {
    /// The life of an aircraft.
    Life(Tail),
    /// What is due on it, and what is left until then on a day.
    Due(Tail, Day),
    /// What will be due on it within so many days of a day, at so many minutes and cycles a day.
    Forecast {
        tail: Tail,
        day: Day,
        days: u32,
        minutes: u32,
        cycles: u32,
    },
    /// The last days of its open defects, and what is left until then on a day.
    Limits(Tail, Day),
    /// What is due on all aircraft, and what is left until then on a day.
    Fleet(Day),
    /// What will be due on all aircraft within so many days of a day, at so many minutes and cycles a day.
    Outlook {
        day: Day,
        days: u32,
        minutes: u32,
        cycles: u32,
    },
    /// All aircraft.
    Aircraft,
    /// All components.
    Components,
    /// The last days of the open defects of all aircraft, and what is left until then on a day.
    Deferred(Day),
}

impl Question {
    /// The registration of the aircraft that it asks of, or `None` where it asks of all.
    pub fn tail(&self) -> Option<&Tail>
        ensures { option_map (λ tail. tail.now) result ≡ tail_asked self.now }
    {
        match self {
            Question::Life(tail)
            | Question::Due(tail, _)
            | Question::Forecast { tail, .. }
            | Question::Limits(tail, _) => Some(tail),
            Question::Fleet(_)
            | Question::Outlook { .. }
            | Question::Aircraft
            | Question::Components
            | Question::Deferred(_) => None,
        }
    }
}
