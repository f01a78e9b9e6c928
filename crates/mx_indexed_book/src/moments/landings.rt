//! The sectors of registers by aircraft and landing, beside what was flown up to each. What was flown with an aircraft by a moment is
//! then the difference of two of these sums, whose places are found by halving.
ghost use Rattle.std.specs.Prelude.{◌≡◌, ◌+◌, ◌-◌, ◌*◌, ◌^◌, min, ◌<◌, ◌≤◌, [], ◌∷◌, ◌++◌, length, filter, take, leb, ltb, slice_index_or, IfOk, OnOk, IsPermutation};
ghost use Rattle.mx_base.specs.declared.amounts.Use.{Use};
ghost use Rattle.std.specs.List.{AllByRecursion};
ghost use Rattle.std.specs.List.Sorted.{IsNonDecreasingBy};
ghost use Rattle.mx_base.specs.rows.Rows.{line_key};
ghost use Rattle.mx_registers.specs.kept.Moments.{flown_with};
ghost use Rattle.mx_indexed_book.specs.moments.Landings.{AreLandings, IsLandingOfDay, landing_key, last_by, less, more_by, none_flown, sums_after};

use mx_base::rows::SectorRow;
use mx_book::entry_list::NoMemory;
use std::alloc::Global;
use std::marker::Model;

/// Minutes and cycles of however many sectors.
#[derive(Clone, Copy, Debug)]
pub struct Flown {
    minutes: u128,
    cycles: u128,
}

impl Model for Flown {
    ghost use Rattle.mx_base.specs.declared.amounts.Use.{Use};

    ghost Value = { Use };

    ghost view = { λ f. record { minutes = f.minutes; cycles = f.cycles } };

    ghost inverse = { λ u. record { minutes = u.minutes; cycles = u.cycles } };
}

// The place among all sectors of one of the aircraft with this number that landed so many minutes after the first moment.
fn place(aircraft: u32, landed: u32) -> u64
    ensures { result ≡ line_key aircraft landed }
{
    u64::from(aircraft) * 4_294_967_296 + u64::from(landed)
}

impl Flown {
    /// Its minutes and these, or the most that there is room for.
    pub(crate) fn minutes_with(&self, minutes: u32) -> u32
        ensures { result ≡ min (minutes + self.now.minutes) (2 ^ 32 - 1) }
    {
        more(self.minutes, minutes)
    }

    /// Its cycles and these, or the most that there is room for.
    pub(crate) fn cycles_with(&self, cycles: u32) -> u32
        ensures { result ≡ min (cycles + self.now.cycles) (2 ^ 32 - 1) }
    {
        more(self.cycles, cycles)
    }
}

// A number and another, or the most that there is room for.
fn more(flown: u128, number: u32) -> u32
    ensures { result ≡ min (number + flown) (2 ^ 32 - 1) }
{
    match u32::try_from(flown) {
        Ok(flown) => number.saturating_add(flown),
        Err(_) => u32::MAX,
    }
}

// The last minute by a moment, where one is named.
fn last_by(until: Option<u32>) -> u32
    ensures { result ≡ last_by until }
{
    match until {
        Some(last) => last,
        None => u32::MAX,
    }
}

// The place of a sector among all: by its aircraft, and then by its landing.
fn place_of(row: &SectorRow) -> u64
    ensures { result ≡ landing_key row.now }
{
    place(row.aircraft, row.landed.number())
}

// How many sectors stand before a place.
fn count_before(rows: &[SectorRow], place: u64) -> usize
    ensures bound { result ≤ length rows.now }
    ensures these { IsNonDecreasingBy landing_key rows.now
        → filter (λ row. ltb (landing_key row) place) rows.now ≡ take result rows.now }
{
    rows.partition_point(|row| place_of(row) < place)
}

// How many sectors stand before a place or there.
fn count_up_to(rows: &[SectorRow], place: u64) -> usize
    ensures bound { result ≤ length rows.now }
    ensures these { IsNonDecreasingBy landing_key rows.now
        → filter (λ row. leb (landing_key row) place) rows.now ≡ take result rows.now }
{
    rows.partition_point(|row| place_of(row) <= place)
}

/// What was flown less what had been flown before.
pub(crate) fn less(later: &Flown, earlier: &Flown) -> Flown
    ensures { result ≡ less later.now earlier.now }
{
    Flown {
        minutes: later.minutes.saturating_sub(earlier.minutes),
        cycles: later.cycles.saturating_sub(earlier.cycles),
    }
}

// What was flown, and a sector more, where it was no more than that of so many sectors.
fn more_by(flown: &Flown, row: &SectorRow, count: usize) -> Flown
    requires minutes { flown.now.minutes ≤ count * 2 ^ 32 }
    requires cycles { flown.now.cycles ≤ count * 2 ^ 32 }
    ensures more { result ≡ more_by row.now flown.now }
    ensures minutes { result.minutes ≤ (count + 1) * 2 ^ 32 }
    ensures cycles { result.cycles ≤ (count + 1) * 2 ^ 32 }
    ensures day { IsLandingOfDay row.now }
{
    let minutes = row.landed.number().saturating_sub(row.took_off.number());
    let cycles: u32 = row.cycles;
    Flown {
        minutes: flown.minutes + u128::from(minutes),
        cycles: flown.cycles + u128::from(cycles),
    }
}

// Puts a sum behind others.
fn add_sum(sums: &mut Vec<Flown>, flown: Flown) -> Result<(), NoMemory>
    ensures { OnOk result (sums.new.items ≡ sums.old.items ++ flown ∷ []) }
{
    match sums.push(flown) {
        Ok(()) => Ok(()),
        Err(_) => Err(NoMemory),
    }
}

// What was flown before the first of some sectors, and up to each.
fn sums_of(alloc: Global, rows: &[SectorRow]) -> Result<Vec<Flown>, NoMemory>
    ensures sums { IfOk result (λ sums. sums.items ≡ none_flown ∷ sums_after none_flown rows.now) }
    ensures bounded { OnOk result (AllByRecursion IsLandingOfDay rows.now) }
{
    let mut flown = Flown {
        minutes: 0,
        cycles: 0,
    };
    let mut sums = Vec::new(alloc);
    add_sum(&mut sums, flown)?;
    let mut rest = rows;
    while let Some((row, later)) = rest.split_first() {
        flown = more_by(&flown, row, sums.len());
        add_sum(&mut sums, flown)?;
        rest = later;
    }
    Ok(sums)
}

/// Sectors by aircraft and landing. Contracts see the list of them.
#[derive(Drop)]
pub struct Landings {
    rows: Vec<SectorRow>,
    sums: Vec<Flown>,
}

impl Model for Landings {
    ghost use Rattle.std.specs.Prelude.{List};
    ghost use Rattle.mx_base.specs.declared.rows.rows.SectorRow.{SectorRow};
    ghost use Rattle.mx_indexed_book.specs.moments.Landings.{AreLandings};

    ghost Value = { List SectorRow };

    ghost view = { λ a. a.rows.items };

    ghost invariant = { λ a. AreLandings a.rows.items a.sums.items };
}

// What was flown up to so many of some sectors.
fn sum_at(sums: &[Flown], count: usize) -> Flown
    requires { count < length sums.now }
    ensures { (d : Use) → result ≡ slice_index_or sums.now count d }
{
    sums[count]
}

// What was flown with an aircraft by a moment, of sectors in the order of their places beside their sums.
fn flown_between(rows: &[SectorRow], sums: &[Flown], aircraft: u32, until: Option<u32>) -> Flown
    requires { AreLandings rows.now sums.now }
    ensures { result ≡ flown_with rows.now aircraft until }
{
    let first = count_before(rows, place(aircraft, 0));
    let end = count_up_to(rows, place(aircraft, last_by(until)));
    less(&sum_at(sums, end), &sum_at(sums, first))
}

// Puts sectors into the order of their places.
fn sort_landings(rows: &mut Vec<SectorRow>) -> Result<(), NoMemory>
    ensures same { IsPermutation rows.old.items rows.new.items }
    ensures order { OnOk result (IsNonDecreasingBy landing_key rows.new.items) }
{
    match rows.sort_by_cached_key(|row| place_of(row)) {
        Ok(()) => Ok(()),
        Err(_) => Err(NoMemory),
    }
}

impl Landings {
    /// The sectors of rows in any order. `NoMemory` where memory runs out.
    pub fn of(alloc: Global, sectors: &[SectorRow]) -> Result<Landings, NoMemory>
        ensures { IfOk result (λ landings. IsPermutation sectors.now landings) }
    {
        let mut rows = sectors.to_vec(alloc)?;
        sort_landings(&mut rows)?;
        let sums = sums_of(alloc, rows.as_slice())?;
        Ok(Landings { rows, sums })
    }

    /// What was flown with the aircraft with a number by a minute, where one is named.
    pub fn flown_with(&self, aircraft: u32, until: Option<u32>) -> Flown
        ensures { result ≡ flown_with self.now aircraft until }
    {
        flown_between(self.rows.as_slice(), self.sums.as_slice(), aircraft, until)
    }
}
