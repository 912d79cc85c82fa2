// Two places of a list at once.

ghost use Rattle.std.specs.Prelude.{◌≡◌, ◌<◌, ℕ, length, slice_index_or};

/// What does something with another one of its kind, by what the caller lends.
///
/// If a function gives two `&mut`s whose type names a lifetime, its caller learns nothing of them. So a generic
/// function hands those of a list to one another.
pub trait Together<C> {
    /// It may do so with the other.
    ghost can: { C → Self → Self → Type 0 };

    /// What it and the other one were, and became.
    ghost done: { C → Self → Self → Self → Self → Type 0 };

    /// It does so with the other.
    fn act(&mut self, other: &mut Self, with: &C)
        requires { can with.now self.old other.old }
        ensures { done with.now self.old self.new other.old other.new };
}

/// What stands at one place of a list acts with what stands at another.
pub fn two_together<C, T: Together<C>>(items: &mut [T], one: usize, other: usize, with: &C)
    requires one { one < length items.old }
    requires other { other < length items.old }
    requires apart { one ≡ other → ⊥ }
    requires can { (d : T) → T.can with.now (slice_index_or items.old one d) (slice_index_or items.old other d) }
    ensures count { length items.new ≡ length items.old }
    ensures others { (k : ℕ) (d : T) → (k ≡ one → ⊥) → (k ≡ other → ⊥)
        → slice_index_or items.new k d ≡ slice_index_or items.old k d }
    ensures done { (d : T) → T.done with.now (slice_index_or items.old one d) (slice_index_or items.new one d)
        (slice_index_or items.old other d) (slice_index_or items.new other d) }
{
    if one < other {
        let (front, back) = items.split_at_mut(other);
        front[one].act(&mut back[0], with);
    } else {
        let (front, back) = items.split_at_mut(one);
        back[0].act(&mut front[other], with);
    }
}
