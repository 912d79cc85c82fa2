// What contracts see of a session to be run, and the rules that it is run by: definitions alone, for the crates from
// the setup to the top call.
#![tactic(auto)]
