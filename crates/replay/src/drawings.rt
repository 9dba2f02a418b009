// Arcs drawn by Lines, on one kind, and nine numbers with the start behind them: where these are others, the record is damaged.
use crate::calls::Answer;
use geo::lent::point_at;

pub fn flatten_arc(
    kinds: &[u8],
    numbers: &[f64],
    tolerance: f64,
    lines: &mut [u8],
    out: &mut [f64],
) -> Answer {
    if kinds.len() != 1 || numbers.len() != 12 {
        return None;
    }
    let start = point_at(numbers, 3);
    Some(flatten::flatten::flatten_arc(kinds[0], &numbers[0..9], start, tolerance, lines, out))
}
