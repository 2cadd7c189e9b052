// The entry: starts for the greens of a setting.
ghost use Rattle.std.specs.Prelude.{ℕ, MatchOption};
ghost use Rattle.placing.specs.Searches.{Open, start_of};
ghost use Rattle.placing.specs.Settings.{task_of};
ghost use Rattle.placing.specs.Starts.{Placed};

use crate::answers::Starts;
use crate::room::Bounds;
use crate::settings::Setting;
use crate::sizes::MOST;

impl Bounds {
    // The bounds that a search begins with.
    fn open(setting: &Setting) -> Bounds
        ensures { Open setting.now result }
    {
        let last = setting.cycle.seconds() - 1;
        Bounds {
            low: setting.lowest,
            high: setting.highest.map(|highest| highest.min(last)),
            before: [[false; MOST]; MOST],
        }
    }
}

// Starts that place the greens; none where no starts whatever do.
pub fn place(setting: &Setting) -> Option<Starts>
    ensures { MatchOption result ((start : ℕ → ℕ) → Placed (task_of setting.now) start → ⊥) (λ s. Placed (task_of setting.now) (start_of s)) }
{
    let gaps = setting.measure();
    let bounds = Bounds::open(setting);
    let group = gaps.largest(&bounds);
    gaps.search(&group, bounds)
}
