// Laws of the definitions on what crashes cost.

ghost use Rattle.rcv_costs.specs.Laws.{AgainIsCounted};
ghost use Rattle.rcv_costs.specs.Named.{CostsAreNamed};

/// The costs of a session of an accepted protocol name declared roles, and points of the text.
pub fn costs_are_named()
    ensures { CostsAreNamed }
{}

/// As many messages of a channel are received again as there are numbers of messages that had been received, whose Sends are
/// kept and whose Recvs aren't.
pub fn again_is_counted()
    ensures { AgainIsCounted }
{}
