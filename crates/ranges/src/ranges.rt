// src/geo/algo/fitting.rs: the recursive fit of a range, and that of a chain of points, which is thinned first.
ghost use Rattle.std.specs.Prelude.{◌≡◌, true, [], ◌∷◌, ◌+◌, ◌-◌, ◌*◌, ◌/◌, ◌<◌, ◌≤◌, length, set};
ghost use Rattle.floats.specs.Ops.{◌≺◌, +0};
ghost use Rattle.geo.specs.Domain.{most_points};
ghost use Rattle.geo.specs.Lent.{point_at};
ghost use Rattle.pieces.specs.Written.{noted, noted_in, chain_noted, NotedPlaced};
ghost use Rattle.ranges.specs.Ranges.{next_from};

use geo::domain::MOST_POINTS;
use geo::lists::Stretch;
use geo::types::Command;
use pieces::pieces::{Rule, arc_command, note_of, put_noted, test_line, try_rule};
use simplify::simplify::thin_in_place;

// A fit of a range on its way: the part that is looked at, from lo to hi; how many ends of parts behind it are waiting; and the
// place of the next command. The ends stand in an array, so that a cut takes no room on the stack: in a lent one with their count,
// not in a list, since there is no heap and few points need a small one.
#[derive(Clone, Copy)]
struct Stand {
    lo: usize,
    hi: usize,
    waiting: usize,
    place: usize,
}

impl Stand {
    // So many steps or fewer are few.
    const FEW: usize = 32;

    // Behind a piece: the next part ends where the last of the waiting ends stands.
    fn next(self, place: usize, ends: &[u16]) -> Self
        requires { self.waiting ≤ length ends.now }
        ensures { result ≡ next_from ends.now self.hi place self.waiting }
    {
        if self.waiting == 0 {
            return Self {
                lo: self.hi,
                hi: self.hi,
                waiting: 0,
                place,
            };
        }
        let n = self.waiting - 1;
        Self {
            lo: self.hi,
            hi: usize::from(ends[n]),
            waiting: n,
            place,
        }
    }

    // A cut at k: its front is looked at first, and its end waits.
    fn cut(self, k: usize, ends: &mut [u16]) -> Self
        requires { (self.waiting < length ends.old) × (self.hi < most_points) }
        ensures { (result ≡ record { lo = self.lo; hi = k; waiting = self.waiting + 1; place = self.place }) × (ends.new ≡ set ends.old self.waiting self.hi) }
    {
        let n = self.waiting;
        ends[n] = self.hi as u16;
        Self {
            lo: self.lo,
            hi: k,
            waiting: n + 1,
            place: self.place,
        }
    }
}

// The rule of a fit: its tolerance lies above 0, so that a Line passes whose deviation is 0. A `Rule` is made of any tolerance.
#[derive(Clone, Copy)]
pub struct FitRule {
    pub rule: Rule,
    ghost positive: { (+0 ≺ rule.tolerance) ≡ true },
}

// What a fit is asked: by which rule, and the points of a list.
#[derive(Clone, Copy)]
struct Fit<'a> {
    rule: FitRule,
    route: Stretch<'a>,
    ghost some: { route.start < route.end },
    ghost few: { route.end < most_points },
}

// Where the commands of a fit are written, each with what is noted beside it.
#[derive(Drop)]
struct Sheet<'a> {
    kinds: &'a mut [u8],
    nums: &'a mut [f64],
    notes: &'a mut [u32],
}

impl<'a> Sheet<'a> {
    ghost use Rattle.ranges.specs.Sheet.{Lent, Placed, Looked};

    // Writes the piece that is looked at as the command c.
    fn put_piece(&mut self, c: Command, note: u32, w: Stand, ends: &[u16]) -> Stand
        requires { (w.waiting ≤ length ends.now) × (w.place < length self.old.kinds.now) × (9 * w.place + 8 < length self.old.nums.now) }
        ensures lent { Lent self.old self.new }
        ensures stands { result ≡ next_from ends.now w.hi (w.place + 1) w.waiting }
        ensures wrote { Placed (noted c note ∷ []) w.place 1 self.old self.new }
    {
        put_noted(self.kinds, self.nums, self.notes, w.place, c, note);
        w.next(w.place + 1, ends)
    }

    // Looks at one part: writes it as a Line or an Arc where one passes, else cuts it at the Line's first farthest point, which
    // lies strictly inside: a tolerance above 0 lets a Line pass whose deviation is 0.
    fn fit_next(&mut self, fit: &Fit, w: Stand, ends: &mut [u16]) -> Stand
        requires { (w.lo < w.hi) × (w.hi ≤ fit.now.route.end) × (w.waiting < length ends.old) × (w.place < length self.old.kinds.now) × (9 * w.place + 8 < length self.old.nums.now) }
        ensures lent { Lent self.old self.new }
        ensures looked { Looked fit.now.rule.rule (point_at fit.now.route.points.now) w result ends.old ends.new self.old self.new }
    {
        let rule = fit.rule.rule;
        let part = Stretch {
            points: fit.route.points,
            start: w.lo,
            end: w.hi,
        };
        let d = test_line(rule, part);
        let b = part.last();
        let covered = w.hi - w.lo;
        if d.passes {
            let n = note_of(rule.note, covered, 0);
            return self.put_piece(Command::Line { end: b }, n, w, ends);
        }
        match try_rule(rule, part, d.index) {
            Some(t) => {
                let n = note_of(rule.note, covered, t.worst);
                let c = arc_command(part.first(), b, t.center, t.clockwise);
                self.put_piece(c, n, w, ends)
            }
            None => w.cut(d.index, ends),
        }
    }

    // Writes the commands for the points of a fit from place `at` on, and answers how many they are. A `while`: how many parts there are
    // is known only when the last of them ends where the fit does.
    fn fit_parts(&mut self, fit: &Fit, at: usize, ends: &mut [u16]) -> usize
        requires { (fit.now.route.end - fit.now.route.start ≤ length ends.old) × (at + (fit.now.route.end - fit.now.route.start) ≤ length self.old.kinds.now) × (9 * (at + (fit.now.route.end - fit.now.route.start)) ≤ length self.old.nums.now) }
        // The ends are lent as room to work in: what they hold at exit is left open.
        ensures lent { Lent self.old self.new }
        ensures wrote { Placed (noted_in fit.now.rule.rule (point_at fit.now.route.points.now) fit.now.route.start fit.now.route.end) at result self.old self.new }
    {
        let mut w = Stand {
            lo: fit.route.start,
            hi: fit.route.end,
            waiting: 0,
            place: at,
        };
        while w.lo < fit.route.end {
            w = self.fit_next(fit, w, ends);
        }
        w.place - at
    }
}

// Writes the commands for the points of a stretch, from place `at` on, and answers how many they are. Few points wait in a small
// array, which is filled sooner than a large one. The outputs are parameters here and below, and no `Sheet`: its room would be asked all the
// same, and each contract would say besides that its three slices stay the ones that were lent. That the route ends among the most points
// is asked too, as in `pieces`: a `Fit`, which has it as a fact, is made here.
pub fn fit_range(
    rule: FitRule,
    route: Stretch,
    kinds: &mut [u8],
    nums: &mut [f64],
    notes: &mut [u32],
    at: usize,
) -> usize
    requires { (route.start < route.end) × (route.end < most_points) × (at + (route.end - route.start) ≤ length kinds.old) × (9 * (at + (route.end - route.start)) ≤ length nums.old) }
    ensures { NotedPlaced (noted_in rule.rule (point_at route.entry.points.now) route.entry.start route.entry.end) at result kinds.old kinds.new nums.old nums.new notes.old notes.new }
{
    let fit = Fit { rule, route };
    let mut sheet = Sheet { kinds, nums, notes };
    if route.end - route.start <= Stand::FEW {
        let mut ends = [0u16; Stand::FEW];
        return sheet.fit_parts(&fit, at, &mut ends);
    }
    let mut ends = [0u16; MOST_POINTS];
    sheet.fit_parts(&fit, at, &mut ends)
}

// Fits a chain: it is thinned in place, and what is kept is fitted. A course of at most 800 commands has no longer chain than 801 points;
// that and the room for its commands are asked, for a struct of chain and outputs would be taken apart here, for `fit_range`.
pub fn flush_chain(
    rule: FitRule,
    chain: &mut [f64],
    kinds: &mut [u8],
    nums: &mut [f64],
    notes: &mut [u32],
    at: usize,
) -> usize
    requires { (length chain.old / 3 ≤ 801) × (at + (length chain.old / 3 - 1) ≤ length kinds.old) × (9 * (at + (length chain.old / 3 - 1)) ≤ length nums.old) }
    // The chain is lent as room to work in: what it holds at exit is left open.
    ensures { NotedPlaced (chain_noted rule.rule chain.old) at result kinds.old kinds.new nums.old nums.new notes.old notes.new }
{
    let n = chain.len() / 3;
    if n < 2 {
        return 0;
    }
    let limit = rule.rule.tolerance * rule.rule.tolerance;
    let k = thin_in_place(rule.rule.ruler, chain, limit);
    let kept = Stretch {
        points: &chain[..3 * k],
        start: 0,
        end: k - 1,
    };
    fit_range(rule, kept, kinds, nums, notes, at)
}
