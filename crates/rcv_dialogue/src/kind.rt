// The words that tell the kind of a line.

ghost use Rattle.std.specs.Prelude.{◌≡◌};
ghost use Rattle.rcv_dialogue.specs.Kinds.{kind_in, again_in};

use crate::numbers::is_same;

// What a line is about.
#[derive(Clone, Copy)]
pub enum Kind {
    Send,
    Recv,
    Save,
    Fail,
    Crash,
    Recover,
    Next,
    Kept,
    Line,
    Role,
    Flight,
    Points,
    Table,
    Snapshot,
    End,
    Again,
}

// What a line of a snapshot is about.
#[derive(Clone, Copy)]
pub enum AgainKind {
    Session,
    Role,
    Flight,
    Send,
    Recv,
    Save,
}

// The kind of a line that the word tells.
pub fn kind_of(word: &[u8]) -> Option<Kind>
    ensures { result ≡ kind_in word.now }
{
    if is_same(word, b"send") {
        return Some(Kind::Send);
    }
    if is_same(word, b"recv") {
        return Some(Kind::Recv);
    }
    if is_same(word, b"save") {
        return Some(Kind::Save);
    }
    if is_same(word, b"fail") {
        return Some(Kind::Fail);
    }
    if is_same(word, b"crash") {
        return Some(Kind::Crash);
    }
    if is_same(word, b"recover") {
        return Some(Kind::Recover);
    }
    if is_same(word, b"next") {
        return Some(Kind::Next);
    }
    if is_same(word, b"kept") {
        return Some(Kind::Kept);
    }
    if is_same(word, b"line") {
        return Some(Kind::Line);
    }
    if is_same(word, b"role") {
        return Some(Kind::Role);
    }
    if is_same(word, b"flight") {
        return Some(Kind::Flight);
    }
    if is_same(word, b"points") {
        return Some(Kind::Points);
    }
    if is_same(word, b"table") {
        return Some(Kind::Table);
    }
    if is_same(word, b"snapshot") {
        return Some(Kind::Snapshot);
    }
    if is_same(word, b"end") {
        return Some(Kind::End);
    }
    if is_same(word, b"again") {
        return Some(Kind::Again);
    }
    None
}

// The kind of a line of a snapshot that the word tells.
pub fn again_of(word: &[u8]) -> Option<AgainKind>
    ensures { result ≡ again_in word.now }
{
    if is_same(word, b"session") {
        return Some(AgainKind::Session);
    }
    if is_same(word, b"role") {
        return Some(AgainKind::Role);
    }
    if is_same(word, b"flight") {
        return Some(AgainKind::Flight);
    }
    if is_same(word, b"send") {
        return Some(AgainKind::Send);
    }
    if is_same(word, b"recv") {
        return Some(AgainKind::Recv);
    }
    if is_same(word, b"save") {
        return Some(AgainKind::Save);
    }
    None
}
