// The explanation of each code.

ghost use Rattle.std.specs.Prelude.{IfOk, IfSome, IfNone};
ghost use Rattle.rcv_explain.specs.Explained.{HasRule, IsNamed, IsToldOf};

use crate::explanation::Explanation;
use crate::{calls, journals, plans, rules, scripts, sessions, texts};
use std::alloc::{AllocError, Global};

/// The explanation of a code, if docs/FORMATS.md lists it: 10 to 36, 40 to 43, and 50 to 55. None of any other number.
pub fn explain(code: u8) -> Option<Explanation>
    ensures some { IfSome result (λ e. IsNamed code e.name.now) }
    ensures none { IfNone result (HasRule code → ⊥) }
{
    match code {
        10 => Some(texts::LETTER),
        11 => Some(texts::TOKEN),
        12 => Some(texts::DEEP),
        13 => Some(texts::NAME),
        14 => Some(texts::TWICE),
        15 => Some(texts::SELF_MESSAGE),
        16 => Some(texts::AFTER_CONTINUE),
        17 => Some(texts::UNGUARDED),
        18 => Some(texts::TOO_MANY),
        19 => Some(texts::NOT_YET),
        20 => Some(rules::SUBJECT),
        21 => Some(rules::MIXED),
        22 => Some(rules::SENDERS),
        23 => Some(rules::LABELS),
        24 => Some(rules::NOT_ENABLED),
        25 => Some(rules::MAYBE_DONE),
        26 => Some(rules::UNREACHABLE),
        27 => Some(rules::NO_ROLE),
        28 => Some(rules::LANE_END),
        29 => Some(texts::SHARED),
        30 => Some(scripts::TOKEN),
        31 => Some(scripts::ROLE),
        32 => Some(scripts::LABEL),
        33 => Some(scripts::VARIABLE),
        34 => Some(scripts::ATTEMPT_IN_STATE),
        35 => Some(scripts::NO_PAYLOAD),
        36 => Some(scripts::TOO_MANY),
        40 => Some(plans::TOKEN),
        41 => Some(plans::ROLE),
        42 => Some(plans::TWICE),
        43 => Some(plans::RANGE),
        50 => Some(journals::NO_JOURNAL),
        51 => Some(journals::JOURNAL),
        52 => Some(calls::ARITY),
        53 => Some(calls::RECURSIVE),
        54 => Some(calls::EMPTY_DO),
        55 => Some(sessions::TOO_MUCH),
        _ => None,
    }
}

/// The explanation of a code as text; none if there is no such code. Fails if memory runs out.
pub fn explanation_text(alloc: Global, code: u8) -> Result<Option<Vec<u8>>, AllocError>
    ensures { IfOk result (IsToldOf code) }
{
    let Some(explanation) = explain(code) else {
        return Ok(None);
    };
    Ok(Some(explanation.text(alloc, code)?))
}
