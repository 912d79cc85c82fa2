// The answer to `failures`: what each crash would cost.

ghost use Rattle.std.specs.Prelude.{◌≡◌, ◌≤◌, length, IfOk};
ghost use Rattle.rcv_heat.specs.Shown.{IsFailuresPicture};
ghost use Rattle.rcv_look.specs.Drawing.{IsFailuresDrawing};
ghost use Rattle.rcv_look.specs.Outcome.{IsChartAnswer, Draws, failures_as};

use crate::lines::refuse;
use crate::output::Output;
use crate::status::Status;
use rcv_core::setup::Setup;
use rcv_costs_json::failures_json;
use rcv_heat::failures_picture;
use rcv_input::read_input;
use rcv_losses::losses_text;
use rcv_picture::picture_text;
use std::alloc::{AllocError, Global};

/// How the answer says what crashes would cost.
#[derive(Clone, Copy, Debug, PartialEq, Eq)]
pub enum Form {
    /// As one SVG.
    Picture,
    /// As text, a line for each crash.
    Text,
    /// As a line of JSON.
    Json,
}

/// What each crash of the input's session would cost, in this form, or the input's first refusal. The input has at
/// most 1,048,576 bytes. Fails if memory runs out.
pub fn failures_answer(alloc: Global, input: &[u8], form: Form) -> Result<Output, AllocError>
    requires { length input.now ≤ 1048576 }
    ensures { IfOk result (λ output. IsChartAnswer (failures_as form) input.now output.status output.bytes.items) }
{
    match read_input(alloc, input) {
        Ok(taken) => {
            let mut setup = Setup::new(alloc, taken.accepted, taken.scripts, taken.plan)?;
            show_failures(alloc, &mut setup, form)
        }
        Err(error) => refuse(alloc, error),
    }
}

// What each crash of a session would cost, in this form.
fn show_failures(alloc: Global, setup: &mut Setup, form: Form) -> Result<Output, AllocError>
    ensures { IfOk result (λ output. Draws setup.old (failures_as form) output.status output.bytes.items) }
{
    let bytes = match form {
        Form::Picture => failures_svg(alloc, setup)?,
        Form::Text => losses_text(alloc, setup)?,
        Form::Json => failures_json(alloc, setup)?,
    };
    Ok(Output {
        status: Status::Drawn,
        bytes,
    })
}

// The picture of it.
fn failures_svg(alloc: Global, setup: &mut Setup) -> Result<Vec<u8>, AllocError>
    ensures { IfOk result (λ bytes. IsFailuresDrawing setup.old bytes.items) }
{
    let picture = failures_picture(alloc, setup)?;
    let text = picture_text(alloc, &picture)?;
    Ok(text)
}
