// The recorded functions by number, as oracle/src/geometry/list.rs numbers them. Each reads its arguments from the front of what
// is lent and writes to the front of its outputs; a text is lent where a recorded file is, and so is what a fit's list of worst
// steps has to be.
use crate::thinner::Lent;
use file::words::float_of;
use geo::refusal::Refusal;
use records::layout::Head;

// What no call answers: the refusal of a record that does not fit its call.
pub const DAMAGED: u32 = 1000;

// What a recorded call answers: its count, or why it is refused; nothing where the record does not fit the call.
pub type Answer = Option<Result<usize, Refusal>>;

// Parameters stand one by one, here and in the files of the calls: each call takes those that C's call has, and few take the same.
pub fn call(
    h: Head,
    numbers: &[f64],
    kinds: &[u8],
    recorded: &[u8],
    fitted: &[u8],
    out: &mut [f64],
    bytes: &mut [u8],
) -> Answer {
    let f = h.function;
    let t = float_of(h.value);
    let thinner = Lent {
        tolerance: t,
        numbers,
        count: h.first,
        closed: h.second != 0,
    };
    // The numbers are the records': an enum would be made of the same 35 by a second `match`, for this one alone.
    match f {
        0 => crate::curves::get_midpoint_3d(numbers, out),
        1 => crate::curves::get_bezier_point_at(numbers, t, out),
        2 => crate::curves::split_bezier(numbers, t, out),
        3 => crate::curves::is_bezier_flat(numbers, t),
        4 => crate::curves::linearize_bezier(numbers, h.first, out),
        5 => crate::curves::linearize_bezier_from_params(numbers, t, out),
        6 => crate::curves::linearize_bezier_adaptive(numbers, t, h.first, out),
        7 => crate::curves::linearize_bezier_segment(numbers, h.first, t, out),
        8 => crate::curves::fit_cubic_bezier(numbers, out),
        9 => crate::curves::is_arc_clockwise(numbers),
        10 => Some(simplify::simplify::simplify_polyline(numbers, t, out)),
        11 => Some(simplify::simplify::simplify_polyline_3d(numbers, t, out)),
        12 => Some(simplify::simplify::simplify_data(kinds, numbers, t, bytes, out)),
        13 => crate::circles::are_points_collinear_3d(numbers, t),
        14 => crate::circles::fit_circle_to_3_points(numbers, out),
        15 => crate::circles::fit_circle_to_points_3d(numbers, out),
        16 => crate::circles::project_circle_center_to_bisector(numbers, out),
        17 => crate::circles::get_polyline_line_deviation(numbers, h.first, h.second, out),
        18 => crate::circles::get_polyline_arc_deviation(numbers, out),
        19 => crate::fits::fit_points_recursive(
            numbers, t, h.first, h.second, recorded, bytes, out,
        ),
        20 => {
            crate::fits::fit_points_with_primitives(numbers, t, h.second, recorded, bytes, out)
        }
        21 => Some(course::course::fit_arcs(kinds, numbers, t, bytes, out)),
        22 => Some(course::course::optimize_path_from_array(
            kinds,
            numbers,
            t,
            h.first == 1,
            bytes,
            out,
        )),
        23 => Some(lap_fit::fit::fit_file(recorded, t, bytes)),
        24 => Some(lap_replace::replace::replace_lap(
            recorded, fitted, h.first, kinds, numbers, t, bytes,
        )),
        25 => crate::thinner::start(t, out),
        26 => thinner.feed(out),
        27 => thinner.close(out),
        28 => thinner.retune(out),
        29 => crate::drawings::flatten_arc(kinds, numbers, t, bytes, out),
        30 => Some(svg::reading::read_course(recorded, bytes)),
        31 => crate::straights::fewest_straights(numbers, t, h.first, h.second, out),
        32 => Some(lap_fit::fit::fit_hills(recorded, t, bytes)),
        33 => crate::sessions::ask(
            recorded,
            fitted,
            h.second as u64,
            h.first,
            kinds,
            numbers,
            t,
            bytes,
            out,
        ),
        34 => crate::sessions::commit(recorded, fitted, h.second as u64, h.first, kinds, t, bytes),
        _ => None,
    }
}
