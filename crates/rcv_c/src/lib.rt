// The judge of told events, for C and all that calls C: each function here that C calls is one of library/rcv.h.
#![tactic(auto)]

mod answer;
mod bytes;
mod handle;
mod held;
mod loose;
mod open;
mod refusal;
mod session;
mod status;
mod tell;
mod told;
