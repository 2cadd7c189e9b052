// The greens of a group share the cycle: room after and before each is its own, and all of it together is no more than the cycle.
ghost use Rattle.std.specs.Prelude.{◌≡◌, ℕ, ◌+◌, ◌<◌, ◌≤◌, ◌≢◌, true, false};
ghost use Rattle.crossing.specs.Below.{sum_to};
ghost use Rattle.placing.specs.Bounds.{Nobody};
ghost use Rattle.placing.specs.Crowds.{Span, SpansFrom, Spread, After, Afters, Ahead, Aheads, Crowding, member_of, margin_of};
ghost use Rattle.placing.specs.Sizes.{most_greens};

use crate::pairs::Pair;
use crate::room::Bounds;
use crate::shares::{Group, Margins, Spans};
use crate::sizes::MOST;
use crate::spacing::Gaps;
use std::array::from_fn;

impl Pair<'_> {
    // By how much the first begins before the second, or before its next turn, as far as the bounds tell.
    fn span(&self, bounds: &Bounds) -> u32
        ensures { Span self.now.gaps.now bounds.now self.now.first self.now.second result }
    {
        let gap = u32::from(self.gap());
        if gap == 0 {
            return 0;
        }
        let low = u32::from(bounds.low[self.second]);
        let high = u32::from(bounds.high[self.first]);
        if self.comes_first(bounds) {
            return gap.max(low.saturating_sub(high));
        }
        if self.turned().comes_first(bounds) {
            return gap.max((low + self.gaps.round()).saturating_sub(high));
        }
        gap
    }
}

impl Group {
    // The least of a number over the group's others, and of a bound.
    fn least<F: Fn(usize) -> u32>(&self, count: usize, but: usize, bound: u32, number: F) -> u32
        requires { F.IsAlwaysCallable number }
        ensures whole { result ≤ bound }
        ensures least { (k : ℕ) → k < count → member_of self.now k ≡ true → (k ≢ but) → (y : _) × F.post number k y × (result ≤ y) }
    {
        (0..count).fold(bound, |least, k| {
            if self.has(k) && k != but {
                least.min(number(k))
            } else {
                least
            }
        })
    }

    // A number for each of the group, none for others.
    fn margins<F: Fn(usize) -> u32>(&self, number: F) -> Margins
        requires { F.IsAlwaysCallable number }
        ensures none { (k : ℕ) → k < most_greens → member_of self.now k ≡ false → margin_of result k ≡ 0 }
        ensures some { (k : ℕ) → k < most_greens → member_of self.now k ≡ true → F.post number k (margin_of result k) }
    {
        Margins {
            of: from_fn(|k| if self.has(k) { number(k) } else { 0 }),
        }
    }
}

impl Gaps {
    // The span from one green to another; 0 past the last.
    fn span(&self, bounds: &Bounds, first: usize, second: usize) -> u32
        ensures { first < self.now.count → second < self.now.count → Span self.now bounds.now first second result }
    {
        self.pair(first, second).map_or(0, |pair| pair.span(bounds))
    }

    fn spans_from(&self, bounds: &Bounds, first: usize) -> [u32; MOST]
        ensures { SpansFrom self.now bounds.now first result }
    {
        from_fn(|second| self.span(bounds, first, second))
    }

    pub(crate) fn spread(&self, bounds: &Bounds) -> Spans
        ensures { Spread self.now bounds.now result }
    {
        Spans {
            span: from_fn(
                |first|
                    ensures { SpansFrom self.entry.now bounds.entry.now first result }
                { self.spans_from(bounds, first) },
            ),
        }
    }

    // Room after a green that is its own: no more than to any other of the group, nor than the cycle.
    fn after(&self, spans: &Spans, group: &Group, one: usize) -> u32
        ensures { After self.now spans.now group.now one result }
    {
        group.least(
            self.count,
            one,
            self.round(),
            |other| spans.between(one, other),
        )
    }

    // Room before it: no more than what any other of the group leaves, nor than is left of the cycle.
    fn ahead(&self, spans: &Spans, group: &Group, out: &Margins, other: usize) -> u32
        ensures { Ahead self.now spans.now group.now out.now other result }
    {
        let rest = self.round().saturating_sub(out.of(other));
        group.least(self.count, other, rest, |one| {
            spans.between(one, other).saturating_sub(out.of(one))
        })
    }

    fn afters(&self, spans: &Spans, group: &Group) -> Margins
        ensures { Afters self.now spans.now group.now result }
    {
        group.margins(|one| self.after(spans, group, one))
    }

    fn aheads(&self, spans: &Spans, group: &Group, out: &Margins) -> Margins
        ensures { Aheads self.now spans.now group.now out.now result }
    {
        group.margins(|other| self.ahead(spans, group, out, other))
    }

    fn total(&self, out: &Margins, into: &Margins) -> u32
        ensures { result ≤ sum_to self.now.count (λ k. margin_of out.now k + margin_of into.now k) }
    {
        (0..self.count).fold(
            0,
            |sum: u32, green| sum.saturating_add(out.of(green).saturating_add(into.of(green))),
        )
    }

    // How much of the cycle a group takes, with such spans; where that is more than the cycle, nobody obeys bounds that have them.
    pub(crate) fn taken(&self, spans: &Spans, group: &Group) -> u32
        ensures { (s : Bounds) → Spread self.now s spans.now → Crowding self.now s result }
    {
        let out = self.afters(spans, group);
        let into = self.aheads(spans, group, &out);
        self.total(&out, &into)
    }

    // Whether a group takes more than the cycle, so that nobody obeys.
    pub(crate) fn crowded(&self, bounds: &Bounds, group: &Group) -> bool
        ensures { result ≡ true → Nobody self.now bounds.now }
    {
        let spans = self.spread(bounds);
        self.taken(&spans, group) > self.round()
    }
}
