// Lines that are held, and their answers.

ghost use Rattle.std.specs.Prelude.{◌≡◌, ◌↔◌, ◌<◌, ◌++◌, ℕ, List, take, length, IfOk};
ghost use Rattle.rcv_dialogue.specs.declared.line.Line.TheVariants.{Ask};
ghost use Rattle.rcv_dialogue.specs.declared.line.Question.TheVariants.{End};
ghost use Rattle.rcv_pipe.specs.Feeds.{IsFeed};
ghost use Rattle.rcv_pipe.specs.Pipe.{Waits};
ghost use Rattle.rcv_talk.specs.Answering.{Answers, AnswersFirst, AnswersHeld};

use rcv_dialogue::line::{Line, Question};
use rcv_dialogue::read::read;
use rcv_dialogue::write::write_unread;
use rcv_dialogue::wrong::LineError;
use rcv_guided::session::GuidedSession;
use rcv_pipe::Pipe;
use rcv_text::writer::Writer;
use std::alloc::{AllocError, Global};

// At most so many lines are answered at once.
const MOST_AT_ONCE: usize = 512;

/// What a line means for those after it.
#[derive(Clone, Copy, PartialEq, Eq)]
pub enum Next {
    /// The answer is short, and further lines may be answered with it.
    More,
    /// The answer may be long, and is written before further lines are answered.
    Written,
    /// The dialogue ends with it.
    Ended,
}

// What a line means for those after it.
fn next_behind(line: &Line) -> Next
    ensures { (result ≡ Next.Ended) ↔ (line.now ≡ Ask End) }
{
    match line {
        Line::Send(_) | Line::Recv(_) | Line::Save(_) | Line::Crash(_) => Next::More,
        Line::Ask(Question::End) => Next::Ended,
        _ => Next::Written,
    }
}

/// The answer to a line, which is given without its line feed. Fails if memory runs out for the answer: then nothing is
/// said of the session.
pub fn answer_line(
    alloc: Global,
    session: &mut GuidedSession,
    line: &[u8],
    text: &mut Writer,
) -> Result<Next, AllocError>
    ensures { IfOk result (Answers session.old line.now text.old text.new session.new) }
{
    match read(session.accepted(), line) {
        Ok(line) => {
            session.hear(alloc, &line, text)?;
            Ok(next_behind(&line))
        }
        Err(error) => {
            write_unread(text, error)?;
            Ok(Next::More)
        }
    }
}

// The answer to the first line that is held, whose line feed stands there.
fn answer_first(
    alloc: Global,
    session: &mut GuidedSession,
    pipe: &Pipe,
    feed: usize,
    text: &mut Writer,
) -> Result<Next, AllocError>
    requires { IsFeed pipe.now.held feed }
    ensures { (bytes : List ℕ) → Waits pipe.now bytes
        → IfOk result (AnswersFirst session.old pipe.now feed bytes text.old text.new session.new) }
{
    if pipe.is_long() {
        write_unread(text, LineError::Long)?;
        Ok(Next::More)
    } else {
        answer_line(alloc, session, &pipe.held()[..feed], text)
    }
}

/// The answers to whole lines that are held: to all of them, if they aren't many and their answers are short.
pub fn answer_held(
    alloc: Global,
    session: &mut GuidedSession,
    pipe: &mut Pipe,
    text: &mut Writer,
) -> Result<Next, AllocError>
    ensures { (bytes : List ℕ) → Waits pipe.old bytes
        → IfOk result (AnswersHeld session.old bytes text.old text.new session.new pipe.new) }
{
    for _ in 0..MOST_AT_ONCE {
        let Some(feed) = pipe.feed() else {
            return Ok(Next::More);
        };
        let next = answer_first(alloc, session, pipe, feed, text)?;
        pipe.pass(feed);
        if next != Next::More {
            return Ok(next);
        }
    }
    Ok(Next::Written)
}
