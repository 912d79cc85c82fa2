// Where the cells of a session stand.

ghost use Rattle.std.specs.Prelude.{◌≡◌, ◌↔◌, IsTrue};
ghost use Rattle.rcv_super.specs.declared.whereabouts.Whereabouts.TheVariants.{Before, Home};

/// Where the cells stand, compared with the book.
#[derive(Clone, Copy, Debug)]
pub enum Whereabouts {
    /// One worker has made all entries so far, by the book alone: they stand before the first.
    Before,
    /// At home: each has what the book tells of its role.
    Home,
    /// The session is at its end, and nobody asks for them any more.
    Over,
}

impl Whereabouts {
    /// Whether they stand before the first entry.
    pub fn is_before(self) -> bool
        ensures { IsTrue result ↔ (self ≡ Before) }
    {
        matches!(self, Whereabouts::Before)
    }

    /// Whether they are at home.
    pub fn is_home(self) -> bool
        ensures { IsTrue result ↔ (self ≡ Home) }
    {
        matches!(self, Whereabouts::Home)
    }
}
