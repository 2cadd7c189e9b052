// A bound moved, if that is news. Both answer an `Option<bool>`: with it `?` ends a step where a green can begin nowhere, and `|` joins what moved.
// They are two, since only `raise` still has to see that the bounds leave a second. The casts are proved to lose nothing. Callers have to prove that there is such a green: a test here made the search a tenth slower.
ghost use Rattle.std.specs.Prelude.{◌<◌, ◌⊎◌, MatchOption};
ghost use Rattle.placing.specs.Bounds.{low_of, high_of, Raised, Lowered};
ghost use Rattle.placing.specs.Sizes.{most_greens};

use crate::room::Bounds;

impl Bounds {
    // Has a green begin no earlier than a second, and says whether that moved its bound; none where it can then begin nowhere.
    pub(crate) fn raise(&mut self, green: usize, to: u32) -> Option<bool>
        requires { green < most_greens }
        ensures { MatchOption result ((high_of self.old green < to) ⊎ (high_of self.old green < low_of self.old green)) (λ moved. Raised self.old self.new green to moved) }
    {
        let low = u32::from(self.low[green]);
        let high = u32::from(self.high[green]);
        if to > high || low > high {
            return None;
        }
        if to <= low {
            return Some(false);
        }
        self.low[green] = to as u8;
        Some(true)
    }

    // Has a green begin no later than a second, and says whether that moved its bound; none where it can then begin nowhere.
    pub(crate) fn lower(&mut self, green: usize, to: u32) -> Option<bool>
        requires { green < most_greens }
        ensures { MatchOption result (to < low_of self.old green) (λ moved. Lowered self.old self.new green to moved) }
    {
        if to < u32::from(self.low[green]) {
            return None;
        }
        if to >= u32::from(self.high[green]) {
            return Some(false);
        }
        self.high[green] = to as u8;
        Some(true)
    }
}
