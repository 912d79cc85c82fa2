// The answer to `points` and `explain`.

ghost use Rattle.std.specs.Prelude.{◌≡◌, ◌≤◌, length, IfOk};
ghost use Rattle.rcv_look.specs.Drawing.{ArePoints, ArePointsAsJson, IsExplanation, ListsAs};

use crate::lines::no_rule;
use crate::output::Output;
use crate::status::Status;
use rcv_explain::explanation_text;
use rcv_listing::{Listing, points_text};
use rcv_points_json::points_json;
use std::alloc::{AllocError, Global};

/// The points of the input's protocol, and what the input's first refusal says, if there is one: then it is a refusal.
/// The input has at most 1,048,576 bytes. Fails if memory runs out.
pub fn points_answer(alloc: Global, input: &[u8]) -> Result<Output, AllocError>
    requires { length input.now ≤ 1048576 }
    ensures { IfOk result (λ output. ArePoints input.now output.status output.bytes.items) }
{
    Ok(listed(points_text(alloc, input)?))
}

/// The same as JSON, except for the rule's text and the choice that stands in a sender's way.
pub fn points_json_answer(alloc: Global, input: &[u8]) -> Result<Output, AllocError>
    requires { length input.now ≤ 1048576 }
    ensures { IfOk result (λ output. ArePointsAsJson input.now output.status output.bytes.items) }
{
    Ok(listed(points_json(alloc, input)?))
}

// What is written of a listing.
fn listed(listing: Listing) -> Output
    ensures { ListsAs listing result.status result.bytes.items }
{
    match listing {
        Listing::Accepted(bytes) => Output {
            status: Status::Drawn,
            bytes,
        },
        Listing::RuledOut(bytes) | Listing::HalfRead(bytes) | Listing::Unread(bytes) => Output {
            status: Status::Refused,
            bytes,
        },
    }
}

// The code, which fits.
fn short(code: u32) -> u8
    requires { code ≤ 255 }
    ensures { result ≡ code }
{
    code as u8
}

/// The explanation of the rule with this code, which is at most 255, or that there is none. Fails if memory runs
/// out.
pub fn explain_answer(alloc: Global, code: u32) -> Result<Output, AllocError>
    requires { code ≤ 255 }
    ensures { IfOk result (λ output. IsExplanation code output.status output.bytes.items) }
{
    let told = explanation_text(alloc, short(code))?;
    match told {
        Some(bytes) => Ok(Output {
            status: Status::Drawn,
            bytes,
        }),
        None => no_rule(alloc, code),
    }
}
