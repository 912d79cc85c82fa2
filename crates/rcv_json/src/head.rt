// How the lists of events at one point begin.

ghost use Rattle.rcv_json.specs.Heads.{head_json};

use crate::texts::{label_text, role_text};
use crate::values::write_quoted;
use rcv_core::setup::Setup;
use rcv_journal::head::Beginning;
use rcv_text::writer::Writer;
use rcv_tree::point::Point;
use rcv_tree::role::RoleId;
use std::alloc::{AllocError, Global};

// Most beginnings have so many bytes at most.
const BEGINNING: usize = 40;

/// As the list of an event.
pub struct Listed;

impl Beginning for Listed {
    ghost begun = { head_json };

    fn beginning(
        alloc: Global,
        setup: &Setup,
        kind: &str,
        role: RoleId,
        point: Point,
    ) -> Result<Vec<u8>, AllocError> {
        let mut text = Writer::with_room(alloc, BEGINNING)?;
        text.byte(b'[')?;
        write_quoted(alloc, &mut text, kind)?;
        text.byte(b',')?;
        write_quoted(alloc, &mut text, role_text(setup, role))?;
        text.byte(b',')?;
        text.number(point.0)?;
        text.byte(b',')?;
        write_quoted(alloc, &mut text, label_text(setup, point))?;
        text.byte(b',')?;
        Ok(text.finish())
    }
}
