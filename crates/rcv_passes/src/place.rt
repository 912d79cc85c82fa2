// What is gone over again and again.

/// What a run of a place came to.
#[derive(Clone, Copy, Debug, PartialEq, Eq)]
pub enum Pace {
    /// It made steps, and may make more in this round.
    Moved,
    /// It made no step, and makes none before another place has moved.
    Waits,
    /// It makes no further step in this round. It may have made some in this run.
    Over,
}

/// Something that moves in short runs, and that waits for other places between them. A run is made with a `T`, a tool
/// that the worker brings, and with a `C` that all workers share.
///
/// Its meaning is what proofs say of it: whether it may be run (`ready`), which tools are of one kind (`like`), and
/// what one or more runs with a tool of this kind may make of it (`ran`).
pub trait Place<T, C> {
    /// It may be run.
    ghost ready: { Self → Type 0 };

    /// The two tools are of one kind.
    ghost like: { T → T → Type 0 };

    /// What one or more runs with tools like this one may make of it.
    ghost ran: { T → Self → Self → Type 0 };

    /// One run: some steps, and no more of them than other places can wait for.
    fn run(&mut self, tool: &mut T, with: &C) -> Pace
        requires { ready self.old }
        ensures ready { ready self.new }
        ensures ran { ran tool.old self.old self.new }
        ensures like { like tool.old tool.new };

    /// A tool is of its own kind.
    ghost reflexive: { (t : T) → like t t };

    /// Two tools are of one kind either way.
    ghost symmetric: { (t u : T) → like t u → like u t };

    /// Tools of the kind of a third one are of one kind.
    ghost transitive: { (t u v : T) → like t u → like u v → like t v };

    /// Runs after runs are runs.
    ghost joins: { (t : T) (x y z : Self) → ran t x y → ran t y z → ran t x z };

    /// Runs with a tool are runs with any other of its kind.
    ghost carries: { (t u : T) (x y : Self) → like t u → ran u x y → ran t x y };
}
