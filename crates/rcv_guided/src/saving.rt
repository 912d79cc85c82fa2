// How a session knows of saved states.

/// How a session knows after which of its events each role has saved its state.
#[derive(Clone, Copy, Debug, PartialEq, Eq)]
pub enum Saving {
    /// Each role saves after each multiple of its plan's number (1 if no line says one), and at the counts that are
    /// told.
    ByPlan,
    /// Saves are told, and nothing else is saved.
    Told,
}
