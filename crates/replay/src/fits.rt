// Fits of points, whose answer has more than a count: the worst steps, and what else is beside it, are compared here.
use crate::calls::Answer;
use file::words::half_at;

// The most places of a list of worst steps.
const PLACES: usize = 4800;

// What stands at each of them before a call: the index of no step.
const NO_STEP: u32 = 4000000000;

// Whether a list holds the numbers of a record, four bytes each.
fn is_list(expected: &[u8], list: &[u32]) -> bool {
    if expected.len() / 4 < list.len() {
        return false;
    }
    // The record has four bytes where the list has one number, so it goes by index: in an `all` their bounds would be a closure's contract.
    for i in 0..list.len() {
        if half_at(expected, 4 * i) != u64::from(list[i]) {
            return false;
        }
    }
    true
}

// The list of worst steps, which is lent here, has to be the record's.
// The parameters, here and below, are those of the recorded call, with what is expected among them.
fn fit_range(
    points: &[f64],
    tolerance: f64,
    start: usize,
    end: usize,
    expected: &[u8],
    kinds: &mut [u8],
    nums: &mut [f64],
    worst: &mut [u32],
) -> Answer {
    let a = fitting::fitting::fit_points_recursive(
        points, tolerance, start, end, kinds, nums, worst,
    );
    if is_list(expected, worst) {
        Some(a)
    } else {
        None
    }
}

// It is as long as the record's. The next public function makes the same list: a body for both would take the fit as an argument, and
// its call would be as long.
pub fn fit_points_recursive(
    points: &[f64],
    tolerance: f64,
    start: usize,
    end: usize,
    expected: &[u8],
    kinds: &mut [u8],
    nums: &mut [f64],
) -> Answer {
    let n = expected.len() / 4;
    if PLACES < n {
        return None;
    }
    let mut worst = [NO_STEP; PLACES];
    fit_range(
        points,
        tolerance,
        start,
        end,
        expected,
        kinds,
        nums,
        &mut worst[0..n],
    )
}

// The same of a fit of all points, whose ranges examined have to be those of the record too.
fn fit_all(
    points: &[f64],
    tolerance: f64,
    ranges: usize,
    expected: &[u8],
    kinds: &mut [u8],
    nums: &mut [f64],
    worst: &mut [u32],
) -> Answer {
    let a = fitting::fitting::fit_points_with_primitives(points, tolerance, kinds, nums, worst);
    if !is_list(expected, worst) {
        return None;
    }
    match a {
        Ok(fit) => {
            if fit.ranges == ranges {
                Some(Ok(fit.count))
            } else {
                None
            }
        }
        Err(cause) => Some(Err(cause)),
    }
}

pub fn fit_points_with_primitives(
    points: &[f64],
    tolerance: f64,
    ranges: usize,
    expected: &[u8],
    kinds: &mut [u8],
    nums: &mut [f64],
) -> Answer {
    let n = expected.len() / 4;
    if PLACES < n {
        return None;
    }
    let mut worst = [NO_STEP; PLACES];
    fit_all(
        points,
        tolerance,
        ranges,
        expected,
        kinds,
        nums,
        &mut worst[0..n],
    )
}
