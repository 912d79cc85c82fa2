// The parts of a bundle.

ghost use Rattle.std.specs.Prelude.{◌≡◌, ◌+◌, ◌^◌, ◌≤◌, ◌<◌, length, IfSome, true};
ghost use Rattle.rcv_lexer.specs.Parts.{LiesIn, line_end, line_of, scripts_word, plan_word, here, plan_here};
ghost use Rattle.rcv_lexer.specs.Parts.{first_from, parts_of, span};

use crate::token::Span;

/// The parts of a bundle: what stands before, between and after its separator lines. One that is missing is empty.
#[derive(Clone, Copy, Debug, PartialEq, Eq)]
pub struct Parts {
    pub protocol: Span,
    pub scripts: Span,
    pub plan: Span,
}

/// A line that begins a part: where it stands, where the part begins after it, and whether that is the plan.
#[derive(Clone, Copy, Debug, PartialEq, Eq)]
pub struct Separator {
    pub place: usize,
    pub behind: usize,
    pub plan: bool,
}

// How long the first line is with its end, if it is exactly this word.
fn line_of(word: &[u8], text: &[u8]) -> Option<usize>
    ensures is { result ≡ line_of word.now text.now }
    ensures within { IfSome result (λ m. m ≤ length text.now) }
{
    let len = word.len();
    if !text.starts_with(word) {
        return None;
    }
    match &text[len..] {
        [] => Some(len),
        [b'\n', ..] => Some(len + 1),
        [b'\r', b'\n', ..] => Some(len + 2),
        _ => None,
    }
}

// The separator that begins a text at a place, if a line begins there.
fn here(scripts: bool, fresh: bool, place: usize, text: &[u8]) -> Option<Separator>
    requires { place + length text.now < 2 ^ 63 }
    ensures is { result ≡ here scripts fresh place text.now }
    ensures within { IfSome result (λ s. (s.place ≡ place) × (s.place ≤ s.behind)
        × (s.behind ≤ place + length text.now)) }
{
    if !fresh {
        return None;
    }
    let (plan, len) = match line_of(b"%% scripts", text) {
        Some(len) if scripts => (false, len),
        _ => (true, line_of(b"%% plan", text)?),
    };
    Some(Separator {
        place,
        behind: place + len,
        plan,
    })
}

// The first separator of a text that begins with a line, at a place.
fn first_from(scripts: bool, place: usize, text: &[u8]) -> Option<Separator>
    requires { place + length text.now < 2 ^ 63 }
    ensures is { result ≡ first_from scripts true place text.now }
    ensures within { IfSome result (λ s. (place ≤ s.place) × (s.place ≤ s.behind)
        × (s.behind ≤ place + length text.now)) }
{
    let mut rest = text;
    let mut at = place;
    let mut fresh = true;
    while let [first, after @ ..] = rest {
        if let Some(found) = here(scripts, fresh, at, rest) {
            return Some(found);
        }
        fresh = *first == b'\n';
        at += 1;
        rest = after;
    }
    None
}

fn span(start: usize, end: usize) -> Span
    ensures { result ≡ span start end }
{
    Span { start, end }
}

/// The parts of a bundle. The scripts begin after the first line `%% scripts`, the plan after the first line
/// `%% plan`, and the scripts come first. It takes no memory.
pub fn split(bundle: &[u8]) -> Parts
    ensures parts { result ≡ parts_of bundle.now }
    ensures protocol { LiesIn bundle.now result.protocol }
    ensures scripts { LiesIn bundle.now result.scripts }
    ensures plan { LiesIn bundle.now result.plan }
{
    let end = bundle.len();
    let none = Separator {
        place: end,
        behind: end,
        plan: true,
    };
    let first = first_from(true, 0, bundle).unwrap_or(none);
    let (scripts, second) = if first.plan {
        (first.place, first)
    } else {
        let second = first_from(false, first.behind, &bundle[first.behind..]);
        (first.behind, second.unwrap_or(none))
    };
    Parts {
        protocol: span(0, first.place),
        scripts: span(scripts, second.place),
        plan: span(second.behind, end),
    }
}
