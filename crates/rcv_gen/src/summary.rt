// What a session comes to, in numbers.

ghost use Rattle.std.specs.Prelude.{◌≡◌, ℕ, ◌+◌, ◌-◌, ◌^◌, ◌++◌, List, length, string_bytes, IfOk, OnOk};
ghost use Rattle.rcv_gen.specs.Summary.{CountsWithin, counted, counts_of, events_line, failures_line, number_line};
ghost use Rattle.rcv_gen.specs.Summary.{size_line, summary_text};

use rcv_tree::entry::Entry;
use std::alloc::{AllocError, Global};
use std::fmt::Write;

/// How many entries there are of each kind, undone ones too, and how many events the recoveries undid.
#[derive(Clone, Copy, Debug, PartialEq, Eq)]
pub struct Counts {
    pub sends: u64,
    pub receives: u64,
    pub crashes: u64,
    pub recoveries: u64,
    /// Wide enough for as many entries as memory holds, each of which undoes as many events as it can name.
    pub undone: u128,
}

const NO_COUNTS: Counts = Counts {
    sends: 0,
    receives: 0,
    crashes: 0,
    recoveries: 0,
    undone: 0,
};

// One more entry. The number of entries so far, with which no count overflows, stands only in the proof.
fn count_one(before: Counts, entry: &Entry) -> Counts
    requires { CountsWithin (2 ^ 64 - 2) before }
    ensures value { result ≡ counted before entry.now }
    ensures within { (number : ℕ) → CountsWithin number before → CountsWithin (number + 1) result }
{
    let mut counts = before;
    match entry {
        Entry::Send(_) => counts.sends += 1,
        Entry::Recv(_) => counts.receives += 1,
        Entry::Crash(_) => counts.crashes += 1,
        Entry::Recover { undone, .. } => {
            counts.recoveries += 1;
            counts.undone += *undone as u128;
        }
    }
    counts
}

/// The counts of a journal's entries.
pub fn count(entries: &[Entry]) -> Counts
    ensures { result ≡ counts_of entries.now }
{
    let mut counts = NO_COUNTS;
    for entry in entries {
        counts = count_one(counts, entry);
    }
    counts
}

// The line of a session's size.
#[tactic(auto, unfolding(crate::specs::Summary::size_line))]
fn push_size(text: &mut String, roles: u8, points: u16) -> Result<(), AllocError>
    ensures { OnOk result (string_bytes text.new ≡ string_bytes text.old ++ size_line roles points) }
{
    write!(text, "roles {roles} points {points}\n")
}

// The line of the events.
#[tactic(auto, unfolding(crate::specs::Summary::events_line))]
fn push_events(text: &mut String, counts: &Counts) -> Result<(), AllocError>
    ensures { OnOk result (string_bytes text.new
        ≡ string_bytes text.old ++ events_line counts.now.sends counts.now.receives) }
{
    write!(
        text,
        "sends {} receives {}\n",
        counts.sends, counts.receives
    )
}

// The line of the failures.
#[tactic(auto, unfolding(crate::specs::Summary::failures_line))]
fn push_failures(text: &mut String, counts: &Counts) -> Result<(), AllocError>
    ensures { OnOk result (string_bytes text.new
        ≡ string_bytes text.old ++ failures_line counts.now.crashes counts.now.recoveries counts.now.undone) }
{
    write!(
        text,
        "crashes {} recoveries {} undone {}\n",
        counts.crashes, counts.recoveries, counts.undone
    )
}

// A line of a word and a number.
#[tactic(auto, unfolding(crate::specs::Summary::number_line))]
fn push_number(text: &mut String, word: &str, number: u64) -> Result<(), AllocError>
    ensures { OnOk result (string_bytes text.new ≡ string_bytes text.old ++ number_line word.now number) }
{
    write!(text, "{word} {number}\n")
}

/// The summary of the session of the generated input with this number: how many roles and points its protocol has, how
/// many entries there are of each kind, how many events are kept, and the last line of the journal with its line end.
/// It fails if memory runs out.
pub fn summary(
    alloc: Global,
    number: u32,
    roles: u8,
    points: u16,
    entries: &[Entry],
    kept: u64,
    last: &[u8],
) -> Result<Vec<u8>, AllocError>
    ensures { IfOk result (λ text. text.items ≡ summary_text number roles points entries.now kept last.now) }
{
    let counts = count(entries);
    let mut text = String::new(alloc);
    push_number(&mut text, "gen", number as u64)?;
    push_size(&mut text, roles, points)?;
    push_number(&mut text, "entries", entries.len() as u64)?;
    push_events(&mut text, &counts)?;
    push_failures(&mut text, &counts)?;
    push_number(&mut text, "kept", kept)?;
    let mut text = text.into_bytes();
    text.extend_from_slice(last)?;
    Ok(text)
}
