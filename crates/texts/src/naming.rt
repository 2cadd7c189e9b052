// The names of a junction of a text.
ghost use Rattle.std.specs.Prelude.{◌≡◌, map};
ghost use Rattle.std.specs.Option.{option_map};
ghost use Rattle.texts.specs.Sections.{told_of};

use crate::sections::Section;

impl<'a> Section<'a> {
    pub fn name(&self) -> Option<&'a [u8]>
        ensures { option_map (λ x. x.now) result ≡ (told_of self.now).name }
    {
        self.name
    }

    // The names of its streams.
    pub fn names(&self) -> &[&'a [u8]]
        ensures { map (λ x. x.now) result.now ≡ (told_of self.now).said.names }
    {
        self.draft.names.as_slice()
    }
}
