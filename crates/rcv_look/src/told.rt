// The answer to `told`.

ghost use Rattle.std.specs.Prelude.{◌≡◌, ◌≤◌, ◌<◌, ◌^◌, List, map, Some, drop, length, IfOk};
ghost use Rattle.rcv_input.specs.Input.{IsTaken};
ghost use Rattle.rcv_guide.specs.Guide.{opened, IsMemory};
ghost use Rattle.rcv_tree.specs.declared.event.Event.{Event};
ghost use Rattle.rcv_fates.specs.Record.{HasKept};
ghost use Rattle.rcv_retold.specs.Retold.{HasSameText};
ghost use Rattle.rcv_retold.specs.Text.{AreFirst};
ghost use Rattle.rcv_told.specs.Told.{Remembered};
ghost use Rattle.rcv_look.specs.Drawing.{end_as, short_count, told_end};
ghost use Rattle.rcv_look.specs.Guided.{IsPictureOf};
ghost use Rattle.rcv_replay.specs.Cutting.{cut_of};
ghost use Rattle.rcv_look.specs.Outcome.{IsToldTextAnswer, IsToldBundleAnswer, IsToldAnswer};

use crate::draw::draw;
use crate::input::MOST_OF_BUNDLE;
use crate::lines::{illegal, no_journal, refuse};
use crate::output::Output;
use crate::status::Status;
use rcv_core::setup::Setup;
use rcv_dialogue::answer::{RoleState, State};
use rcv_fates::Record;
use rcv_guide::guide::Guide;
use rcv_input::read_input;
use rcv_lexer::line_feeds;
use rcv_replay::cut::{Cut, cut_of};
use rcv_retold::closing::states_of;
use rcv_retold::text::{Front, ToldError, judge, read_front};
use rcv_scene::ends::{End, RoleEnd};
use std::alloc::{AllocError, Global};

/// The picture of the journal that a guide was told, which stands after the input's bundle, or why there is none. The
/// input has at most 134,217,728 bytes. Fails if memory runs out.
pub fn told_answer(alloc: Global, input: &[u8]) -> Result<Output, AllocError>
    requires { length input.now ≤ 134217728 }
    ensures { IfOk result (λ output. IsToldAnswer input.now output.status output.bytes.items) }
{
    match cut_of(input) {
        Some(cut) => cut_answer(alloc, input, cut),
        None => no_journal(alloc, 1 + line_feeds(input)),
    }
}

// The answer to an input that is cut here.
fn cut_answer(alloc: Global, input: &[u8], cut: Cut) -> Result<Output, AllocError>
    requires cut { cut_of input.now ≡ Some cut }
    requires order { cut.end ≤ cut.behind }
    requires within { cut.behind ≤ length input.now }
    requires most { length input.now ≤ 134217728 }
    ensures { IfOk result (λ output. IsToldAnswer input.now output.status output.bytes.items) }
{
    if cut.end > MOST_OF_BUNDLE {
        return Ok(Output {
            status: Status::TooLong,
            bytes: Vec::new(alloc),
        });
    }
    let feeds = line_feeds(&input[..cut.behind]);
    bundle_answer(alloc, &input[..cut.end], &input[cut.behind..], feeds)
}

// The answer to a bundle with this text after it, and so many line feeds before the text.
fn bundle_answer(
    alloc: Global,
    bundle: &[u8],
    text: &[u8],
    feeds: u32,
) -> Result<Output, AllocError>
    requires bundle { length bundle.now ≤ 1048576 }
    requires text { length text.now ≤ 134217728 }
    ensures { IfOk result (λ output. IsToldBundleAnswer bundle.now text.now feeds output.status output.bytes.items) }
{
    match read_input(alloc, bundle) {
        Ok(taken) => {
            let setup = Setup::new(alloc, taken.accepted, taken.scripts, taken.plan)?;
            text_answer(alloc, &setup, bundle, text, feeds)
        }
        Err(error) => refuse(alloc, error),
    }
}

// The guide of the session that a bundle was taken as, with room for so many events. It keeps a protocol of its own, so
// the bundle is read again. Fails if memory runs out.
fn guide_of(alloc: Global, setup: &Setup, bundle: &[u8], room: u32) -> Result<Guide, AllocError>
    requires bundle { length bundle.now ≤ 1048576 }
    requires taken { IsTaken bundle.now setup.now }
    requires few { room < 2 ^ 31 }
    ensures fresh { IfOk result (λ guide. guide ≡ opened guide.protocol setup.now.plan room) }
    ensures same { IfOk result (λ guide. HasSameText guide.protocol setup.now.protocol) }
{
    match read_input(alloc, bundle) {
        Ok(taken) => Guide::new(alloc, taken.accepted, taken.plan, room),
        // What was taken isn't refused.
        Err(_) => Err(AllocError),
    }
}

// How a role stands, as a picture says it.
fn end_as(state: State) -> End
    ensures { result ≡ end_as state }
{
    match state {
        State::Down => End::Down,
        State::Done => End::Done,
        State::Waits => End::Waits,
    }
}

// The count, or the greatest that a picture says, if it is greater.
fn short(count: u64) -> u32
    ensures { result ≡ short_count count }
{
    if count < 4_294_967_296 {
        count as u32
    } else {
        u32::MAX
    }
}

// The same of a role.
fn told_end(own: &RoleState) -> RoleEnd
    ensures { result ≡ told_end own.now }
{
    RoleEnd {
        role: own.role,
        kept: short(own.kept),
        raw: short(own.raw),
        end: end_as(own.state),
    }
}

// The same of each role. Fails if memory runs out.
fn told_ends(alloc: Global, states: &[RoleState]) -> Result<Vec<RoleEnd>, AllocError>
    ensures { IfOk result (λ ends. ends.items ≡ map told_end states.now) }
{
    let mut ends = Vec::new(alloc);
    for own in states {
        ends.push(told_end(own))?;
    }
    Ok(ends)
}

// The picture of a told journal whose record this is, with its roles where the guide has them. Fails if memory runs
// out.
fn picture(alloc: Global, record: &Record<'_>, guide: &Guide) -> Result<Vec<u8>, AllocError>
    ensures { IfOk result (λ text. (m : Remembered) (kept : List Event) → IsMemory guide.now m → HasKept record.now kept
        → IsPictureOf guide.now m record.now kept text.items) }
{
    let states = states_of(alloc, guide)?;
    let ends = told_ends(alloc, states.as_slice())?;
    draw(alloc, record, ends.as_slice())
}

// The answer to a told journal with these entries at its front, by a guide that was told nothing yet.
fn judged(
    alloc: Global,
    setup: &Setup,
    guide: &mut Guide,
    text: &[u8],
    front: &Front,
    feeds: u32,
) -> Result<Output, AllocError>
    requires few { length text.now < 2 ^ 31 }
    requires within { front.now.bytes ≤ length text.now }
    requires first { AreFirst setup.now.protocol text.now front.now.entries.items (drop front.now.bytes text.now) }
    requires fresh { guide.old ≡ opened guide.old.protocol setup.now.plan (length front.now.entries.items) }
    requires same { HasSameText guide.old.protocol setup.now.protocol }
    ensures { IfOk result (λ output. IsToldTextAnswer setup.now text.now feeds output.status output.bytes.items) }
{
    match judge(alloc, setup, guide, text, front) {
        Ok(record) => Ok(Output {
            status: Status::Drawn,
            bytes: picture(alloc, &record, guide)?,
        }),
        Err(ToldError::Line(number)) => illegal(alloc, u64::from(feeds) + u64::from(number)),
        Err(ToldError::Memory) => Err(AllocError),
    }
}

// The answer to the text of a told journal after so many line feeds, for the session that the
// bundle was taken as.
fn text_answer(
    alloc: Global,
    setup: &Setup,
    bundle: &[u8],
    text: &[u8],
    feeds: u32,
) -> Result<Output, AllocError>
    requires bundle { length bundle.now ≤ 1048576 }
    requires taken { IsTaken bundle.now setup.now }
    requires text { length text.now ≤ 134217728 }
    ensures { IfOk result (λ output. IsToldTextAnswer setup.now text.now feeds output.status output.bytes.items) }
{
    let front = read_front(alloc, setup.accepted(), text)?;
    let mut guide = guide_of(alloc, setup, bundle, front.entries.len() as u32)?;
    judged(alloc, setup, &mut guide, text, &front, feeds)
}
