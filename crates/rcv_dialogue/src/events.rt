// Lines that tell events.

ghost use Rattle.std.specs.Prelude.{◌≡◌};
ghost use Rattle.rcv_dialogue.specs.Left.{left};
ghost use Rattle.rcv_dialogue.specs.Reading.{Gives, send_at, recv_at, save_at};

use crate::line::{Line, ToldRecv, ToldSave, ToldSend};
use crate::said::{counted, message, optional, role};
use crate::words::{Misfit, is_over, wrong};
use crate::wrong::Expected;
use rcv_accept::accepted::Accepted;
use rcv_tree::point::Point;
use rcv_tree::role::RoleId;

/// `ROLE POINT LABEL VALUE [@STAMP] [#INC]`
#[tactic(auto, unfolding(crate::specs::Reading::send_at))]
pub fn send(accepted: &Accepted, words: &[u8]) -> Result<Line, Misfit>
    ensures { Gives (λ line. line) result (send_at accepted.now (left words.now)) }
{
    let (role, words) = role(accepted, words)?;
    let (point, value, words) = message(accepted, words)?;
    let (stamp, words) = optional(b'@', Expected::Stamp, words)?;
    let (incarnation, words) = optional(b'#', Expected::Incarnation, words)?;
    if !is_over(words) {
        return Err(wrong(words, Expected::End));
    }
    Ok(Line::Send(ToldSend {
        role: RoleId(role),
        point: Point(point),
        value,
        stamp,
        incarnation,
    }))
}

/// `ROLE POINT LABEL VALUE [@STAMP] [<SENT] [#INC]`
#[tactic(auto, unfolding(crate::specs::Reading::recv_at))]
pub fn recv(accepted: &Accepted, words: &[u8]) -> Result<Line, Misfit>
    ensures { Gives (λ line. line) result (recv_at accepted.now (left words.now)) }
{
    let (role, words) = role(accepted, words)?;
    let (point, value, words) = message(accepted, words)?;
    let (stamp, words) = optional(b'@', Expected::Stamp, words)?;
    let (sent, words) = optional(b'<', Expected::Sent, words)?;
    let (incarnation, words) = optional(b'#', Expected::Incarnation, words)?;
    if !is_over(words) {
        return Err(wrong(words, Expected::End));
    }
    Ok(Line::Recv(ToldRecv {
        role: RoleId(role),
        point: Point(point),
        value,
        stamp,
        sent,
        incarnation,
    }))
}

/// `ROLE COUNT [#INC]`
#[tactic(auto, unfolding(crate::specs::Reading::save_at))]
pub fn save(accepted: &Accepted, words: &[u8]) -> Result<Line, Misfit>
    ensures { Gives (λ line. line) result (save_at accepted.now (left words.now)) }
{
    let (role, words) = role(accepted, words)?;
    let (count, words) = counted(Expected::Count, words)?;
    let (incarnation, words) = optional(b'#', Expected::Incarnation, words)?;
    if !is_over(words) {
        return Err(wrong(words, Expected::End));
    }
    Ok(Line::Save(ToldSave {
        role: RoleId(role),
        count,
        incarnation,
    }))
}
