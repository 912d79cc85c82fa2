// A told line, read from its bytes.

ghost use Rattle.std.specs.Prelude.{◌≡◌, ◌<◌, ◌≤◌, ◌↔◌, length, Ok, Err, IfOk};
ghost use Rattle.rcv_dialogue.specs.declared.wrong.LineError.TheVariants.{Long};
ghost use Rattle.rcv_dialogue.specs.declared.line.Line.{Line};
ghost use Rattle.rcv_lines.specs.Cutting.{fields_of};
ghost use Rattle.rcv_dialogue.specs.Lines.{SaysLine};
ghost use Rattle.rcv_dialogue.specs.Left.{left};
ghost use Rattle.rcv_dialogue.specs.Reading.{Gives, line_at, wrong_in, IsReadAs, reading};

use crate::again::again;
use crate::events::{recv, save, send};
use crate::failures::{crash, fail, recover};
use crate::kind::{Kind, kind_of};
use crate::line::{Line, Question};
use crate::questions::{flight, of_role, plain};
use crate::words::{Misfit, count_of, first};
use crate::wrong::{Expected, LineError, Wrong};
use rcv_accept::accepted::Accepted;

/// A line has at most so many bytes.
pub const LONGEST: usize = 2048;

// What a text says.
#[tactic(auto, unfolding(crate::specs::Reading::line_at))]
fn line(accepted: &Accepted, text: &[u8]) -> Result<Line, Misfit>
    requires { length text.now ≤ 2048 }
    ensures { Gives (λ line. line) result (line_at accepted.now (fields_of text.now)) }
{
    let (word, rest) = first(text);
    let Some(kind) = kind_of(word) else {
        return Err(Misfit {
            left: count_of(text),
            expected: Expected::Line,
        });
    };
    match kind {
        Kind::Send => send(accepted, rest),
        Kind::Recv => recv(accepted, rest),
        Kind::Save => save(accepted, rest),
        Kind::Fail => fail(accepted, rest),
        Kind::Crash => crash(accepted, rest),
        Kind::Recover => recover(accepted, rest),
        Kind::Next => Ok(Line::Ask(Question::Next(of_role(accepted, rest)?))),
        Kind::Kept => plain(Question::Kept, rest),
        Kind::Line => plain(Question::Line, rest),
        Kind::Role => Ok(Line::Ask(Question::Role(of_role(accepted, rest)?))),
        Kind::Flight => Ok(Line::Ask(Question::Flight(flight(accepted, rest)?))),
        Kind::Points => plain(Question::Points, rest),
        Kind::Table => plain(Question::Table, rest),
        Kind::Snapshot => plain(Question::Snapshot, rest),
        Kind::End => plain(Question::End, rest),
        Kind::Again => again(accepted, rest),
    }
}

// The number of the misfit among the words of a text that isn't too long.
fn wrong_of(text: &[u8], misfit: Misfit) -> Wrong
    requires { length text.now ≤ 2048 }
    ensures { result ≡ wrong_in (fields_of text.now) misfit }
{
    let before = count_of(text).saturating_sub(misfit.left);
    Wrong {
        word: before as u16 + 1,
        expected: misfit.expected,
    }
}

// What a text that isn't too long says.
fn whole(accepted: &Accepted, text: &[u8]) -> Result<Line, Wrong>
    requires { length text.now ≤ 2048 }
    ensures value { result ≡ reading accepted.now text.now }
    ensures short { length text.now ≤ 2048 }
{
    match line(accepted, text) {
        Ok(line) => Ok(line),
        Err(misfit) => Err(wrong_of(text, misfit)),
    }
}

/// What a line of an accepted protocol says. The line is given without its line feed. It takes no memory.
pub fn read(accepted: &Accepted, text: &[u8]) -> Result<Line, LineError>
    // What is read has this text.
    ensures found { IfOk result (λ line. SaysLine accepted.now text.now line) }
    // What has this text is read.
    ensures only { (line : Line) → SaysLine accepted.now text.now line → result ≡ Ok line }
    // Nothing else is too long.
    ensures long { (result ≡ Err Long) ↔ (2048 < length text.now) }
    // Which word is wrong.
    ensures exact { length text.now ≤ 2048 → IsReadAs result (reading accepted.now text.now) }
{
    // Tells the proof that the protocol is accepted.
    let _protocol = accepted.protocol();
    if text.len() > LONGEST {
        return Err(LineError::Long);
    }
    match whole(accepted, text) {
        Ok(line) => Ok(line),
        Err(wrong) => Err(LineError::Wrong(wrong)),
    }
}
