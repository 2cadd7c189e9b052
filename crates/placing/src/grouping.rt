// Which greens to count as a crowd: any will do, so nothing is promised; those that are all tied and take most of the cycle tell most.
use crate::room::Bounds;
use crate::shares::Group;
use crate::spacing::Gaps;

impl Gaps {
    fn tied_to_all(&self, group: &Group, green: usize) -> bool {
        (0..self.count).all(|other| !group.has(other) || self.between(green, other) > 0)
    }

    // A green and, one after the other, all that are tied to it and to those before.
    fn grow(&self, seed: usize) -> Group {
        (0..self.count).fold(Group::default().with(seed), |group, green| {
            if self.tied_to_all(&group, green) {
                group.with(green)
            } else {
                group
            }
        })
    }

    // Of groups that take as much, the first.
    pub(crate) fn largest(&self, bounds: &Bounds) -> Group {
        let spans = self.spread(bounds);
        let groups = (0..self.count).rev().map(|seed| self.grow(seed));
        groups
            .max_by_key(|group| self.taken(&spans, group))
            .unwrap_or_default()
    }
}
