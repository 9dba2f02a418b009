// Answers that are a count or a refusal.
ghost use Rattle.exports.specs.Plain.{Handed, HandedNumber};

use geo::refusal::Refusal;

// Hands an answer on: the count to `count`, or the refusal's number back, which is any.
#[tactic(auto, unfolding(crate::specs::Plain::count_or))]
pub fn hand_on(a: Result<usize, u32>, count: &mut usize) -> u32
    ensures { HandedNumber a count.old count.new result }
{
    match a {
        Ok(n) => {
            *count = n;
            0
        }
        Err(number) => number,
    }
}

// The same of a call's answer, whose refusal has a cause.
#[tactic(auto, unfolding(crate::specs::Plain::count_or))]
pub fn hand_cause(a: Result<usize, Refusal>, count: &mut usize) -> u32
    ensures { Handed a count.old count.new result }
{
    match a {
        Ok(n) => hand_on(Ok(n), count),
        Err(cause) => hand_on(Err(u32::from(cause)), count),
    }
}
