// The live thinner, its state lent by the caller: the tolerance, the numbers of 65 points, how many of the points count, and a flag, by
// which the thinner is closed where it is not 0. Between two calls nothing is kept but what is lent.
ghost use Rattle.std.specs.Prelude.{length};
ghost use Rattle.live.specs.Calls.{feed, retune, close, live_call};
ghost use Rattle.exports.specs.LiveState.{point_of, lent_state, start_call, Began, Kept, Retold, Ended, Shut};

use geo::lent::{point_at, put_point};
use live::live::Live;

// Starts a thinner: all of its state is written.
#[unsafe(no_mangle)]
pub extern "C" fn pz_live_start(
    tolerance: f64,
    kept: &mut f64,
    points: &mut [f64; Live::NUMBERS],
    count: &mut usize,
    closed: &mut u32,
) -> u32
    ensures { Began (start_call tolerance) kept.old kept.new points.old points.new count.old count.new closed.old closed.new result }
{
    match Live::start(tolerance) {
        Ok(state) => {
            let ps = state.points;
            *kept = state.tolerance;
            *points = ps;
            *count = state.count;
            *closed = 0;
            0
        }
        Err(refused) => u32::from(refused.cause),
    }
}

// Feeds a point: the end that it hands out, if there is one, goes to `end`, and how many there are to `handed`.
#[unsafe(no_mangle)]
pub extern "C" fn pz_live_feed(
    tolerance: f64,
    points: &mut [f64; Live::NUMBERS],
    count: &mut usize,
    closed: u32,
    point: &[f64; 3],
    end: &mut [f64; 3],
    handed: &mut usize,
) -> u32
    ensures state { Kept (live_call (lent_state tolerance points.old count.old closed) (feed (point_of point.now))) points.old points.new count.old count.new result }
    ensures end { Ended (live_call (lent_state tolerance points.old count.old closed) (feed (point_of point.now))) end.old end.new handed.old handed.new result }
{
    let ps = *points;
    let mut state = Live {
        tolerance,
        points: ps,
        count: *count,
        closed: closed != 0,
    };
    match state.feed(point_at(point, 0)) {
        Ok(Some(p)) => {
            put_point(end, 0, p);
            *handed = 1;
            let qs = state.points;
            *points = qs;
            *count = state.count;
            0
        }
        Ok(None) => {
            *handed = 0;
            let qs = state.points;
            *points = qs;
            *count = state.count;
            0
        }
        Err(cause) => u32::from(cause),
    }
}

// Closes the thinner: of its state the flag changes alone.
#[unsafe(no_mangle)]
pub extern "C" fn pz_live_close(
    tolerance: f64,
    points: &[f64; Live::NUMBERS],
    count: usize,
    closed: &mut u32,
    end: &mut [f64; 3],
    handed: &mut usize,
) -> u32
    ensures state { Shut (live_call (lent_state tolerance points.now count closed.old) close) points.now count closed.old closed.new result }
    ensures end { Ended (live_call (lent_state tolerance points.now count closed.old) close) end.old end.new handed.old handed.new result }
{
    let ps = *points;
    let mut state = Live {
        tolerance,
        points: ps,
        count,
        closed: *closed != 0,
    };
    match state.close() {
        Ok(Some(p)) => {
            put_point(end, 0, p);
            *handed = 1;
            *closed = 1;
            0
        }
        Ok(None) => {
            *handed = 0;
            *closed = 1;
            0
        }
        Err(cause) => u32::from(cause),
    }
}

// Sets a new tolerance: the ends that the held points come to under it go to `out`, and how many there are to `handed`.
#[unsafe(no_mangle)]
pub extern "C" fn pz_live_retune(
    finer: f64,
    tolerance: &mut f64,
    points: &mut [f64; Live::NUMBERS],
    count: &mut usize,
    closed: u32,
    out: &mut [f64],
    handed: &mut usize,
) -> u32
    ensures state { Kept (live_call (lent_state tolerance.old points.old count.old closed) (retune finer (length out.old))) points.old points.new count.old count.new result }
    ensures ends { Retold (live_call (lent_state tolerance.old points.old count.old closed) (retune finer (length out.old))) tolerance.old tolerance.new out.old out.new handed.old handed.new result }
{
    let ps = *points;
    let mut state = Live {
        tolerance: *tolerance,
        points: ps,
        count: *count,
        closed: closed != 0,
    };
    match state.retune(finer, out) {
        Ok(n) => {
            *handed = n;
            *tolerance = state.tolerance;
            let qs = state.points;
            *points = qs;
            *count = state.count;
            0
        }
        Err(cause) => u32::from(cause),
    }
}
