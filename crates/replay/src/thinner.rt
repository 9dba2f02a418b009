// The live thinner on a state that is lent: its slots among the numbers, and behind them the point that is fed or the new tolerance; the
// count and the flag among the whole ones. Written are the slots afterwards and then the ends. The count is that of the ends, and 64
// times four times that of the points, with 2 where the thinner is closed.
ghost use Rattle.std.specs.Prelude.{◌≤◌, length};

use crate::calls::Answer;
use geo::lent::{point_at, put_point};
use geo::refusal::Refusal;
use geo::types::Point3D;
use live::live::Live;

// The slots of a state, from the front of the numbers. A type of numbers that are enough would be made for one call, here and below.
fn slots_of(numbers: &[f64]) -> [f64; Live::NUMBERS]
    requires { 195 ≤ length numbers.now }
{
    let mut points = [0.0; Live::NUMBERS];
    points.copy_from_slice(&numbers[..Live::NUMBERS]);
    points
}

// Writes the slots of a state to the front of out.
fn put_slots(points: &[f64; Live::NUMBERS], out: &mut [f64])
    requires { 195 ≤ length out.old }
{
    out[..Live::NUMBERS].copy_from_slice(points);
}

// What the count tells of a state; of one whose count is out of bounds, nothing. The 0 is compared with the record's count, and an option
// would be opened where each answer is made.
fn told(state: Live, ends: usize) -> usize {
    if state.count > Live::SLOTS || ends > Live::MOST {
        return 0;
    }
    if state.closed {
        return 64 * (4 * state.count + 2) + ends;
    }
    256 * state.count + ends
}

// Writes what a point fed or a close comes to: the state afterwards, and the end that was handed out.
fn written(state: Live, handed: Result<Option<Point3D>, Refusal>, out: &mut [f64]) -> Answer {
    if out.len() < Live::NUMBERS + 3 {
        return None;
    }
    let points = state.points;
    match handed {
        Ok(Some(p)) => {
            put_slots(&points, out);
            put_point(out, Live::NUMBERS, p);
            Some(Ok(told(state, 1)))
        }
        Ok(None) => {
            put_slots(&points, out);
            Some(Ok(told(state, 0)))
        }
        Err(cause) => Some(Err(cause)),
    }
}

pub fn start(tolerance: f64, out: &mut [f64]) -> Answer {
    if out.len() < Live::NUMBERS {
        return None;
    }
    match Live::start(tolerance) {
        Ok(state) => {
            let points = state.points;
            put_slots(&points, out);
            Some(Ok(told(state, 0)))
        }
        Err(refused) => Some(Err(refused.cause)),
    }
}

// A state as it is lent: what the calls of a thinner share.
#[derive(Clone, Copy)]
pub struct Lent<'a> {
    pub tolerance: f64,
    pub numbers: &'a [f64],
    pub count: usize,
    pub closed: bool,
}

impl<'a> Lent<'a> {
    fn state(self) -> Live
        requires { 195 ≤ length self.numbers.now }
    {
        Live {
            tolerance: self.tolerance,
            points: slots_of(self.numbers),
            count: self.count,
            closed: self.closed,
        }
    }

    pub fn feed(self, out: &mut [f64]) -> Answer {
        if self.numbers.len() < Live::NUMBERS + 3 {
            return None;
        }
        let mut state = self.state();
        let handed = state.feed(point_at(self.numbers, Live::SLOTS));
        written(state, handed, out)
    }

    pub fn close(self, out: &mut [f64]) -> Answer {
        if self.numbers.len() < Live::NUMBERS {
            return None;
        }
        let mut state = self.state();
        let handed = state.close();
        written(state, handed, out)
    }

    pub fn retune(self, out: &mut [f64]) -> Answer {
        if self.numbers.len() < Live::NUMBERS + 1 || out.len() < Live::NUMBERS {
            return None;
        }
        let mut state = self.state();
        match state.retune(self.numbers[Live::NUMBERS], &mut out[Live::NUMBERS..]) {
            Ok(n) => {
                let points = state.points;
                put_slots(&points, out);
                Some(Ok(told(state, n)))
            }
            Err(cause) => Some(Err(cause)),
        }
    }
}
