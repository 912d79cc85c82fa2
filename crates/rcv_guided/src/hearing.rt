// What told events have in common: whether their role is heard, and what the guide is told.

ghost use Rattle.std.specs.Prelude.{◌≡◌, ◌<◌, ◌↔◌, IsTrue, IfSome, MatchOption};
ghost use Rattle.rcv_accept.specs.Accepted.{AcceptedView};
ghost use Rattle.rcv_dialogue.specs.Answers.{IsNamed};
ghost use Rattle.rcv_guided.specs.Session.{roles_in};
ghost use Rattle.rcv_guided.specs.Hearing.{accepted_of, Agrees, IsHeard, IsUnheard, IsRefusalOfStamp, news_of};

use crate::session::GuidedSession;
use rcv_dialogue::answer::{Answer, Cause, Stale};
use rcv_guide::news::News;
use rcv_tree::point::Point;
use rcv_tree::role::RoleId;

// Whether a number is the right one, if it is told.
fn agrees(told: Option<u64>, right: u64) -> bool
    ensures { IsTrue result ↔ Agrees told right }
{
    match told {
        Some(told) => told == right,
        None => true,
    }
}

/// The answer if the told stamp isn't the right one.
pub fn refusal_of_stamp(told: Option<u64>, right: u64) -> Option<Answer<'static>>
    ensures why { MatchOption result (Agrees told right) (IsRefusalOfStamp told right) }
    ensures named { (a : AcceptedView) → IfSome result (IsNamed a) }
{
    if agrees(told, right) {
        return None;
    }
    Some(Answer::Illegal(Cause::Stamp(right)))
}

impl GuidedSession {
    // The answer if a declared role isn't heard: it is told in another incarnation, or is down.
    pub(crate) fn refusal_to_hear(&self, role: RoleId, told: Option<u64>) -> Option<Answer<'_>>
        requires { role < roles_in self.now }
        ensures why { MatchOption result (IsHeard self.now role told) (IsUnheard self.now role told) }
        ensures named { IfSome result (IsNamed (accepted_of self.now)) }
    {
        let own = self.incarnations[role.0 as usize];
        let told = told.unwrap_or(own);
        if told < own {
            return Some(Answer::Stale(Stale::Incarnation(own)));
        }
        if told > own {
            return Some(Answer::Illegal(Cause::Incarnation(own)));
        }
        if self.guide.is_down(role) {
            return Some(Answer::Illegal(Cause::Down));
        }
        None
    }

    // What the guide is told of an event of a declared role.
    pub(crate) fn news(&self, role: RoleId, point: Point, value: i64) -> News
        requires { role < roles_in self.now }
        ensures { result ≡ news_of self.now role point value }
    {
        News {
            role,
            attempt: self.guide.attempt(role),
            point,
            value,
        }
    }
}
