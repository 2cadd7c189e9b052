// A junction laid out for the search of starts.
ghost use Rattle.std.specs.Prelude.{◌≡◌, ◌-◌, ◌<◌, ◌≤◌, length, nat_lt, count_by, MatchOption};
ghost use Rattle.crossing.specs.Taken.{site_of};
ghost use Rattle.groups.specs.Groups.{asked};
ghost use Rattle.placing.specs.Settings.{task_of};
ghost use Rattle.planning.specs.Laying.{RowWritten, RowsWritten, Opened, Laid, Laid-prop, Lengthened, Overlong};

use crossing::Junction;
use groups::asked;
use placing::Setting;

// Writes the junction's table: row by row, what has to be clear after a stream. A loop over the streams: a `for_each` that writes the setting would be no plainer.
fn write_table(setting: &mut Setting, junction: &Junction)
    ensures { RowsWritten setting.old setting.new junction.now.count junction.now.table junction.now.count }
{
    for first in 0..junction.streams() {
        for (next, &number) in junction.row(first).iter().enumerate() {
            setting.set_entry(first, next, number);
        }
    }
}

// Lets each of the junction's greens but the anchor begin in any second. A loop too, for the same reason.
fn open_windows(setting: &mut Setting, junction: &Junction, anchor: usize)
    ensures { Opened setting.old setting.new anchor (junction.now.cycle.seconds - 1) junction.now.count }
{
    let last = junction.cycle().seconds() - 1;
    for green in 0..junction.streams() {
        if green != anchor {
            setting.set_window(green, 0, last);
        }
    }
}

// How many numbers of a row are not 0.
fn crossed(row: &[u8]) -> usize
    ensures { result ≡ count_by (nat_lt 0) row.now }
{
    row.iter().filter(|&&number| number > 0).count()
}

// The stream that crosses most others, of several the first: to begin with it leaves the search least to choose.
fn busiest(junction: &Junction) -> usize
    ensures { result < junction.now.count }
{
    (0..junction.streams())
        .rev()
        .max_by_key(|&stream| crossed(junction.row(stream)))
        .unwrap()
}

// How long a stream's green has to be for so much to spare; none where that is longer than the cycle.
fn asked_within(junction: &Junction, spare: u8, stream: usize) -> Option<u8>
    ensures { MatchOption result (junction.now.cycle.seconds < asked (site_of junction.now) spare stream) (λ long. (long ≡ asked (site_of junction.now) spare stream) × (long ≤ junction.now.cycle.seconds)) }
{
    let long = u8::try_from(asked(junction, spare, stream)).ok()?;
    (long <= junction.cycle().seconds()).then_some(long)
}

// A junction laid out: its setting, in which every stream may begin in any second, but one. The greens have no length yet.
#[derive(Drop)]
pub(crate) struct Ground<'a> {
    pub(crate) junction: &'a Junction,
    // The stream that begins in second 0.
    anchor: usize,
    setting: Setting,
    ghost there: { anchor < junction.now.count },
    ghost laid: { Laid (site_of junction.now) anchor (task_of setting) } by { Laid-prop (site_of junction.now) anchor (task_of setting) },
}

impl<'a> Ground<'a> {
    pub(crate) fn new(junction: &'a Junction) -> Ground<'a>
        ensures { result.junction.now ≡ junction.now }
    {
        let anchor = busiest(junction);
        let mut setting = Setting::new(junction.cycle(), junction.streams()).unwrap();
        write_table(&mut setting, junction);
        open_windows(&mut setting, junction, anchor);
        Ground {
            junction,
            anchor,
            setting,
        }
    }

    // The setting with greens as long as they have to be for so much to spare; none where one would be longer than the cycle.
    pub(crate) fn lengthened(&self, spare: u8) -> Option<Setting>
        ensures { MatchOption result (Overlong (site_of self.now.junction.now) spare) (λ t. Lengthened (site_of self.now.junction.now) spare self.now.setting t self.now.junction.now.count) }
    {
        let mut longer = self.setting;
        // A loop with `?`: a `try_fold` would hand on the whole setting.
        for stream in 0..self.junction.streams() {
            longer.set_long(stream, asked_within(self.junction, spare, stream)?);
        }
        Some(longer)
    }
}
