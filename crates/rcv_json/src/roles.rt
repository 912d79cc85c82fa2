// What is said of the roles, as values.

ghost use Rattle.std.specs.Prelude.{◌≡◌, ◌<◌, map, IfOk};
ghost use Rattle.serde_json.specs.View.{view};
ghost use Rattle.rcv_session.specs.Session.{roles_of};
ghost use Rattle.rcv_journal.specs.JournalText.{HaveRoles, word_text};
ghost use Rattle.rcv_journal.specs.Json.{line_data, limited_data, list_of};

use crate::texts::role_text;
use rcv_core::setup::Setup;
use rcv_journal::line::{RoleLine, RoleWord};
use serde_json::{Value, json};
use std::alloc::{AllocError, Global};

// The word as it is written.
fn text_of_word(word: RoleWord) -> &'static str
    ensures { result.now ≡ word_text word }
{
    match word {
        RoleWord::Done => "done",
        RoleWord::Limit => "limit",
        RoleWord::Waits => "waits",
    }
}

// The line of a declared role.
fn line_value(alloc: Global, setup: &Setup, line: &RoleLine) -> Result<Value, AllocError>
    requires { line.now.role < roles_of setup.now }
    ensures { IfOk result (λ value. view value ≡ line_data setup.now line.now) }
{
    json!(in alloc; [role_text(setup, line.role), line.kept, line.raw, text_of_word(line.word)])
}

/// The lines of declared roles: `[ROLE,KEPT,RAW,WORD]` for each. Fails if memory runs out.
pub fn lines_value(alloc: Global, setup: &Setup, lines: &[RoleLine]) -> Result<Value, AllocError>
    requires { HaveRoles setup.now lines.now }
    ensures { IfOk result (λ value. view value ≡ list_of (map (line_data setup.now) lines.now)) }
{
    let mut list = Vec::new(alloc);
    for line in lines {
        list.push(line_value(alloc, setup, line)?)?;
    }
    Ok(Value::Array(list))
}

/// The names of those of these roles that are at the limit. Fails if memory runs out.
pub fn limited_value(alloc: Global, setup: &Setup, lines: &[RoleLine]) -> Result<Value, AllocError>
    requires { HaveRoles setup.now lines.now }
    ensures { IfOk result (λ value. view value ≡ list_of (limited_data setup.now lines.now)) }
{
    let mut list = Vec::new(alloc);
    for line in lines {
        if line.word == RoleWord::Limit {
            list.push(Value::try_from_str(alloc, role_text(setup, line.role))?)?;
        }
    }
    Ok(Value::Array(list))
}
