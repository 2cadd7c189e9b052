// The starts that a search found, one for each green.
ghost use Rattle.std.specs.Prelude.{◌≡◌, length, slice_index};
ghost use Rattle.placing.specs.Sizes.{most_greens};

use crate::sizes::MOST;

#[derive(Clone, Copy, Debug, PartialEq, Eq)]
pub struct Starts {
    pub(crate) at: [u8; MOST],
    ghost sized: { length at ≡ most_greens },
}

impl Starts {
    // The second in which a green begins; 0 past the last that there is room for.
    pub fn start(&self, green: usize) -> u8
        ensures { result ≡ slice_index self.now.at green }
    {
        self.at.get(green).copied().unwrap_or(0)
    }
}
