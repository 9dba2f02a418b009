// The fewest straights: the pairs tested have to be those of the record. The count is that of the Lines, and 256 times the lower
// bound; each is at most 255.
use crate::calls::Answer;
use fewest::fewest::Task;

// The parameters are those of the recorded call. A `map` in place of the `match` would have an option inside, for a record that does not fit.
pub fn fewest_straights(
    points: &[f64],
    tolerance: f64,
    budget: usize,
    expected: usize,
    out: &mut [f64],
) -> Answer {
    match fewest::fewest::fewest_straights(points, tolerance, budget as u64, out) {
        Ok(counts) => {
            let most = Task::MOST_POINTS;
            if counts.tested != expected as u64 || most <= counts.count || most <= counts.bound {
                return None;
            }
            Some(Ok(counts.count + most * counts.bound))
        }
        Err(cause) => Some(Err(cause)),
    }
}
