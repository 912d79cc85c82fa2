// What questions ask about.

ghost use Rattle.std.specs.Prelude.{◌≡◌};
ghost use Rattle.rcv_dialogue.specs.declared.line.Line.TheVariants.{Ask};
ghost use Rattle.rcv_dialogue.specs.Left.{left};
ghost use Rattle.rcv_dialogue.specs.Reading.{Gives, ended, of_role_at, flight_at};

use crate::line::{Line, Question};
use crate::said::role;
use crate::words::{Misfit, is_over, wrong};
use crate::wrong::Expected;
use rcv_accept::accepted::Accepted;
use rcv_tree::role::RoleId;

/// `ROLE`
#[tactic(auto, unfolding(crate::specs::Reading::of_role_at))]
pub fn of_role(accepted: &Accepted, words: &[u8]) -> Result<RoleId, Misfit>
    ensures { Gives (λ x. x) result (of_role_at accepted.now (left words.now)) }
{
    let (role, words) = role(accepted, words)?;
    if !is_over(words) {
        return Err(wrong(words, Expected::End));
    }
    Ok(RoleId(role))
}

/// `ROLE`, or nothing.
#[tactic(auto, unfolding(crate::specs::Reading::flight_at))]
pub fn flight(accepted: &Accepted, words: &[u8]) -> Result<Option<RoleId>, Misfit>
    ensures { Gives (λ x. x) result (flight_at accepted.now (left words.now)) }
{
    if is_over(words) {
        return Ok(None);
    }
    let role = of_role(accepted, words)?;
    Ok(Some(role))
}

/// A question about nothing further.
pub fn plain(question: Question, words: &[u8]) -> Result<Line, Misfit>
    ensures { Gives (λ line. line) result (ended (left words.now) (Ask question)) }
{
    if !is_over(words) {
        return Err(wrong(words, Expected::End));
    }
    Ok(Line::Ask(question))
}
