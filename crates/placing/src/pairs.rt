// Two greens of a search, the one to come before the other.
ghost use Rattle.std.specs.Prelude.{◌≡◌, ◌<◌, MatchOption};
ghost use Rattle.placing.specs.Gaps.{gap_at};

use crate::spacing::Gaps;

#[derive(Clone, Copy, Debug)]
pub struct Pair<'a> {
    pub(crate) gaps: &'a Gaps,
    pub(crate) first: usize,
    pub(crate) second: usize,
    ghost one: { first < gaps.now.count },
    ghost other: { second < gaps.now.count },
}

impl Gaps {
    // Two of its greens; none where one is past the last.
    pub(crate) fn pair(&self, first: usize, second: usize) -> Option<Pair<'_>>
        ensures { MatchOption result ((first < self.now.count) × (second < self.now.count) → ⊥) (λ p. (p.gaps.now ≡ self.now) × (p.first ≡ first) × (p.second ≡ second)) }
    {
        if first < self.count && second < self.count {
            Some(Pair {
                gaps: self,
                first,
                second,
            })
        } else {
            None
        }
    }
}

impl<'a> Pair<'a> {
    // The same two, the other way round.
    pub(crate) fn turned(&self) -> Pair<'a>
        ensures gaps { result.gaps ≡ self.now.gaps }
        ensures first { result.first ≡ self.now.second }
        ensures second { result.second ≡ self.now.first }
    {
        Pair {
            gaps: self.gaps,
            first: self.second,
            second: self.first,
        }
    }

    // By how much the first has to begin before the second, where it comes first.
    pub(crate) fn gap(&self) -> u16
        ensures { result ≡ gap_at self.now.gaps.now self.now.first self.now.second }
    {
        self.gaps.gap[self.first][self.second]
    }
}
