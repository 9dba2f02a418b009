// The fewest straights through recorded points.
ghost use Rattle.std.specs.Prelude.{◌≡◌, length};
ghost use Rattle.geo.specs.Lent.{flat};
ghost use Rattle.geo.specs.Outcome.{left};
ghost use Rattle.fewest.specs.Straights.{numbers_at};
ghost use Rattle.fewest.specs.Calls.{straights_call, ends_given};
ghost use Rattle.exports.specs.Plain.{Told};

// Finds the fewest Lines from the first point to the last, by a budget of tests, and tells how many they are, how many pairs
// were tested, and a lower bound of the count.
#[unsafe(no_mangle)]
pub extern "C" fn pz_fewest_straights(
    points: &[f64],
    tolerance: f64,
    budget: u64,
    out: &mut [f64],
    count: &mut usize,
    tested: &mut u64,
    bound: &mut usize,
) -> u32
    ensures count { Told (λ b. length b.ends) (straights_call points.now tolerance budget (length out.old)) count.old count.new result }
    ensures tested { Told (λ b. b.tested) (straights_call points.now tolerance budget (length out.old)) tested.old tested.new result }
    ensures bound { Told (λ b. b.bound) (straights_call points.now tolerance budget (length out.old)) bound.old bound.new result }
    ensures ends { out.new ≡ left (flat (numbers_at points.now)) out.old (ends_given (straights_call points.now tolerance budget (length out.old))) }
{
    match fewest::fewest::fewest_straights(points, tolerance, budget, out) {
        Ok(counts) => {
            *count = counts.count;
            *tested = counts.tested;
            *bound = counts.bound;
            0
        }
        Err(cause) => u32::from(cause),
    }
}
