//! The points on the way from one layout to the next.
ghost use Rattle.std.specs.Prelude.{◌≡◌};
ghost use Rattle.mx_registers.specs.points.Points.{is_in_move, is_on_way, point_after, steps_from};

use mx_base::Point;

/// The greatest mark: no entry has a greater number.
pub const LAST_MARK: u32 = 1_000_000;

/// The newest layout, to which files are moved.
pub const NEWEST_LAYOUT: u8 = 2;

/// How many steps the move from a layout to the next has.
pub fn steps_from(layout: u8) -> u8
    ensures { result ≡ steps_from layout }
{
    match layout {
        1 => 4,
        2 => 2,
        _ => 0,
    }
}

// Whether the point is settled at a layout that a move leads from, or in one of the steps of that move.
fn is_in_move(at: Point) -> bool
    ensures { result ≡ is_in_move at }
{
    let last = steps_from(at.layout);
    0 < last && at.step <= last && at.mark <= LAST_MARK && (at.step != 0 || at.mark == 0)
}

/// Whether the point is on the way to the newest layout: settled at one before, or in a step of the move from there.
pub fn is_on_way(at: Point) -> bool
    ensures { result ≡ is_on_way at }
{
    at.layout < NEWEST_LAYOUT && is_in_move(at)
}

/// The point behind this one, where its step goes on to a mark, or has nothing left to move. A point that is not on the
/// way to the newest layout stays as it is.
pub fn point_after(at: Point, next_mark: Option<u32>) -> Point
    ensures { result ≡ point_after at next_mark }
{
    if !is_on_way(at) {
        return at;
    }
    if at.step == 0 {
        return Point {
            layout: at.layout,
            step: 1,
            mark: 0,
        };
    }
    match next_mark {
        Some(mark) => Point {
            layout: at.layout,
            step: at.step,
            mark,
        },
        None if at.step < steps_from(at.layout) => Point {
            layout: at.layout,
            step: at.step + 1,
            mark: 0,
        },
        None => Point {
            layout: at.layout + 1,
            step: 0,
            mark: 0,
        },
    }
}
