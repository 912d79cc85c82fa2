// What the program may be asked to do.

use rcv_tree::name::Name;

/// A command.
#[derive(Drop)]
pub enum Command {
    /// Draws the journal that stands after the bundle.
    Journal,
    /// Draws the journal of the session with this number, from 1 to 64, of those that stand after the bundle.
    Session { number: u32 },
    /// Draws the journal that a guide was told, which stands after the bundle.
    Told,
    /// Says of the journal that stands after the bundle whether it is legal, and what of it is wrong.
    Replay,
    /// Draws who restarts where, for each role and each point at which it may fail.
    Table,
    /// Says the same as JSON.
    TableJson,
    /// Draws what the role with this name does at each of its places.
    Role { role: Name },
    /// Says the same as JSON.
    RoleJson { role: Name },
    /// Draws the protocol.
    Protocol,
    /// Lists the protocol's points with their lines, and explains what refuses the input.
    Points,
    /// Says the same as JSON, except for the rule's text.
    PointsJson,
    /// Draws what each crash would cost.
    Failures,
    /// Lists it, a line for each.
    FailuresText,
    /// Says it as JSON.
    FailuresJson,
    /// Explains the rule with this code.
    Explain { code: u32 },
}
