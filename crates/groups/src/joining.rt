// Which streams are members of a set, and joining it.
ghost use Rattle.std.specs.Prelude.{◌≡◌, ℕ, true, false, slice_set};
ghost use Rattle.groups.specs.Groups.{other};
ghost use Rattle.groups.specs.Members.{member_of};

use crate::members::Group;
use greens::MOST_STREAMS;

impl Group {
    // Without any member.
    pub fn new() -> Group
        ensures { (k : ℕ) → member_of result k ≡ false }
    {
        Group {
            member: [false; MOST_STREAMS],
        }
    }

    // Whether a stream is a member; past the twelfth none is.
    pub fn has(&self, stream: usize) -> bool
        ensures { result ≡ member_of self.now stream }
    {
        self.member.get(stream).copied().unwrap_or(false)
    }

    // Whether the second stream is another member than the first.
    pub(crate) fn has_other(&self, stream: usize, next: usize) -> bool
        ensures { result ≡ other (member_of self.now) stream next }
    {
        self.has(next) && stream != next
    }

    // Takes a stream in; past the twelfth there is none to take in.
    #[tactic(auto, using(std::proofs::lemmas::List::set_past))]
    pub fn join(&mut self, stream: usize)
        ensures { self.new.member ≡ slice_set self.old.member stream true }
    {
        if stream < MOST_STREAMS {
            self.member[stream] = true;
        }
    }
}
