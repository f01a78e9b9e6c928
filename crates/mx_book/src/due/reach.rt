//! After how many days a due is reached, at a rate a day.
ghost use Rattle.std.specs.Prelude.{◌≡◌, ◌+◌, ◌*◌, ◌||◌, ℕ, Bool, nat_le};
ghost use Rattle.mx_book.specs.due.Left.{left_until};
ghost use Rattle.mx_book.specs.due.Reach.{reaches, reaches_in, reaches_some, IsLeastIfAny};

use mx_base::Left;

/// The least number of days, from 0 on, that use up what is left at a rate a day: `None` where no number does.
pub fn days_to_reach(left: i64, rate: u32) -> Option<u64>
    ensures { IsLeastIfAny (reaches rate left) result }
{
    if left <= 0 {
        return Some(0);
    }
    if rate == 0 {
        return None;
    }
    Some((left as u64).div_ceil(u64::from(rate)))
}

// The same in a dimension that may have no due.
fn days_to_reach_in(left: Option<i64>, rate: u32) -> Option<u64>
    ensures { IsLeastIfAny (reaches_in rate left) result }
{
    match left {
        None => None,
        Some(left) => days_to_reach(left, rate),
    }
}

// The lesser of two numbers, where there are any.
fn sooner_of(a: Option<u64>, b: Option<u64>) -> Option<u64>
    ensures { (p q : ℕ → Bool) → IsLeastIfAny p a → IsLeastIfAny q b
        → IsLeastIfAny (λ n. p n || q n) result }
{
    match a {
        None => b,
        Some(m) => match b {
            None => a,
            Some(n) => Some(m.min(n)),
        },
    }
}

/// The least number of days, from 0 on, that use up what is left in some dimension, at these minutes and cycles a day:
/// `None` where no number does.
pub fn days_to_reach_some(left: &Left, minutes: u32, cycles: u32) -> Option<u64>
    ensures { IsLeastIfAny (reaches_some minutes cycles left.now) result }
{
    let by_minutes = days_to_reach_in(left.minutes, minutes);
    let by_cycles = days_to_reach_in(left.cycles, cycles);
    let by_days = days_to_reach_in(left.days, 1);
    let by_either = sooner_of(by_cycles, by_days);
    let by_any = sooner_of(by_minutes, by_either);
    by_any
}

/// So many days use up what is left until a due exactly where the use now and so many times the rate reach the due.
#[tactic(auto, using(crate::proofs::DueProofs::ReachLemmas::reaches_due))]
pub fn days_reach_the_due()
    ensures { (rate now due n : ℕ)
        → reaches rate (left_until now due) n ≡ nat_le due (now + n * rate) }
{}
