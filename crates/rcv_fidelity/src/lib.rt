// Laws: the runs of an accepted protocol are what the machines of its roles make, and what journals keep.
#![tactic(auto)]

ghost use Rattle.rcv_fidelity.specs.Laws.{RunsAreMadeByMachines, RunsAreMadeByTables, MachinesSeeTheirOwn};
ghost use Rattle.rcv_fidelity.specs.Laws.{MachinesAreSafe, JournalsKeepMachineSteps, RunsAreJournals};

/// The runs of an accepted protocol are exactly the lists of events that are steps of its roles' machines.
pub fn runs_are_made_by_machines()
    ensures { RunsAreMadeByMachines }
{}

/// They are exactly those that the tables of these machines allow.
pub fn runs_are_made_by_tables()
    ensures { RunsAreMadeByTables }
{}

/// What a machine can do depends on what its role did and on what lies in the channels to it, and on nothing else.
pub fn machines_see_their_own()
    ensures { MachinesSeeTheirOwn }
{}

/// The machines of an accepted protocol don't get stuck, expect each message that they meet, and leave none.
pub fn machines_are_safe()
    ensures { MachinesAreSafe }
{}

/// After each entry of a legal journal of an accepted protocol, recoveries included, the kept events are such steps.
pub fn journals_keep_machine_steps()
    ensures { JournalsKeepMachineSteps }
{}

/// Each run of an accepted protocol is, stamps apart, what a legal journal without crashes keeps under some rules.
pub fn runs_are_journals()
    ensures { RunsAreJournals }
{}
