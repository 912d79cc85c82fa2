// A ring of eight roles that passes a value round and round, with two crashes.

ghost use Rattle.std.specs.Prelude.{◌≡◌, ◌≤◌, ◌<◌, ◌+◌, ◌++◌, codes, decimal, length, string_bytes, IfOk, OnOk};
ghost use Rattle.rcv_gen.specs.Generated.{first_script, generated, head, message_line, messages, plan, protocol};
ghost use Rattle.rcv_gen.specs.Generated.{script_line, scripts};

use std::alloc::{AllocError, Global};
use std::fmt::Write;

// The message with this label from the role to the next one in the ring.
#[tactic(auto, unfolding(crate::specs::Generated::message_line))]
fn push_message(text: &mut String, label: &str, role: u64) -> Result<(), AllocError>
    requires { role < 8 }
    ensures { OnOk result (string_bytes text.new ≡ string_bytes text.old ++ message_line label.now role) }
{
    let next = (role + 1) % 8;
    write!(text, "{label} from R{role} to R{next};\n")
}

// Such a message from each of so many roles.
#[tactic(auto, using(crate::proofs::Lists::one_more_message, crate::proofs::Lists::no_message))]
fn push_messages(text: &mut String, label: &str, roles: u64) -> Result<(), AllocError>
    requires { roles ≤ 8 }
    ensures { OnOk result (string_bytes text.new ≡ string_bytes text.old ++ messages label.now roles) }
{
    for role in 0..roles {
        push_message(text, label, role)?;
    }
    Ok(())
}

// The script of a role after the first.
#[tactic(auto, unfolding(crate::specs::Generated::script_line))]
fn push_script(text: &mut String, role: u64) -> Result<(), AllocError>
    ensures { OnOk result (string_bytes text.new ≡ string_bytes text.old ++ script_line role) }
{
    write!(
        text,
        "role R{role} {{ var v = 0; on more set v = value; send more = v + 1; }}\n"
    )
}

// The scripts of so many roles after the first.
#[tactic(auto, using(crate::proofs::Lists::one_more_script, crate::proofs::Lists::no_script))]
fn push_scripts(text: &mut String, roles: u64) -> Result<(), AllocError>
    requires { roles ≤ 7 }
    ensures { OnOk result (string_bytes text.new ≡ string_bytes text.old ++ scripts roles) }
{
    for before in 0..roles {
        push_script(text, before + 1)?;
    }
    Ok(())
}

// The protocol up to its first message.
fn push_head(text: &mut String) -> Result<(), AllocError>
    ensures { OnOk result (string_bytes text.new ≡ string_bytes text.old ++ head) }
{
    text.push_str("module gen;\nglobal protocol Gen(")?;
    text.push_str("role R0, role R1, role R2, role R3, role R4, role R5, role R6, role R7")?;
    text.push_str(") {\nrec L {\nchoice at R0 {\n")?;
    Ok(())
}

// The protocol: the value goes round, or the ring stops.
fn push_protocol(text: &mut String) -> Result<(), AllocError>
    ensures { OnOk result (string_bytes text.new ≡ string_bytes text.old ++ protocol) }
{
    push_head(text)?;
    push_messages(text, "more(Int)", 8)?;
    text.push_str("continue L;\n} or {\n")?;
    push_messages(text, "stop()", 7)?;
    text.push_str("}\n}\n}\n")?;
    Ok(())
}

// The script of the first role. It counts its events down from this number, two in each round, and then stops the ring.
#[tactic(auto, unfolding(crate::specs::Generated::first_script))]
fn push_first_script(text: &mut String, left: u32) -> Result<(), AllocError>
    ensures { OnOk result (string_bytes text.new ≡ string_bytes text.old ++ first_script left) }
{
    write!(
        text,
        "role R0 {{ var left = {left}; on more set left = left - 1; send more = left; pick more when left > 0; pick stop; }}\n"
    )
}

// The plan: two roles crash, and one of them saves its state only now and then.
#[tactic(auto, unfolding(crate::specs::Generated::plan))]
fn push_plan(text: &mut String) -> Result<(), AllocError>
    ensures { OnOk result (string_bytes text.new ≡ string_bytes text.old ++ plan) }
{
    text.push_str("%% plan\nevery R3 64\ncrash R3 101\ncrash R6 250\n")
}

/// The generated input with this number, which is at most 4,000: a value goes `200 + number` times round a ring of
/// eight roles, and its plan has a crash line for R3 and for R6. An input of this length may be read. It fails if
/// memory runs out.
#[tactic(auto, using(crate::proofs::Lengths::generated_fits))]
pub fn generate(alloc: Global, number: u32) -> Result<Vec<u8>, AllocError>
    requires { number ≤ 4000 }
    ensures value { IfOk result (λ text. text.items ≡ generated number) }
    ensures fits { length (generated number) ≤ 1048576 }
{
    let mut text = String::new(alloc);
    push_protocol(&mut text)?;
    text.push_str("%% scripts\n")?;
    push_first_script(&mut text, 2 * (200 + number))?;
    push_scripts(&mut text, 7)?;
    push_plan(&mut text)?;
    Ok(text.into_bytes())
}
