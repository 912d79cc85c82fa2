// The lines of a snapshot, written to their bytes.

ghost use Rattle.std.specs.Prelude.{◌≡◌, ◌++◌, All, flat_map, OnOk};
ghost use Rattle.rcv_dialogue.specs.Lines.{IsRole, down_text};
ghost use Rattle.rcv_dialogue.specs.Answers.{IsDeclared, HasEnds, NamesInAgain, again_line, again_text, standing_text, numbers_text};
ghost use Rattle.rcv_dialogue.specs.declared.line.Again.TheVariants as again;

use crate::line::{Again, Extent, Flight, ToldStanding};
use crate::write::{message, named, numbered};
use rcv_accept::accepted::Accepted;
use rcv_text::writer::Writer;
use rcv_tree::event::{Dir, Event};
use rcv_tree::role::RoleId;
use std::alloc::AllocError;

// The word for whether a role is down.
fn down_word(down: bool) -> &'static [u8]
    ensures { result.now ≡ down_text down }
{
    if down { b"down" } else { b"up" }
}

// `again session told COUNT room COUNT`
fn extent(text: &mut Writer, accepted: &Accepted, extent: &Extent) -> Result<(), AllocError>
    ensures { OnOk result (text.new ≡ text.old ++ again_text accepted.now (again.Session extent.now)) }
{
    text.word(b"again session told")?;
    numbered(text, extent.told)?;
    text.word(b" room")?;
    numbered(text, extent.room)
}

// `again role ROLE kept COUNT raw COUNT at PLACE`
fn place(text: &mut Writer, accepted: &Accepted, standing: &ToldStanding) -> Result<(), AllocError>
    requires { IsRole accepted.now standing.now.role }
    ensures { OnOk result (text.new ≡ text.old ++ standing_text accepted.now standing.now) }
{
    text.word(b"again role")?;
    named(text, accepted, standing.role)?;
    text.word(b" kept")?;
    numbered(text, standing.kept)?;
    text.word(b" raw")?;
    numbered(text, standing.raw)?;
    text.word(b" at")?;
    numbered(text, standing.place as u64)
}

// ` clock STAMP attempt COUNT up #INC`, or `down` for `up`
fn numbers(text: &mut Writer, standing: &ToldStanding) -> Result<(), AllocError>
    ensures { OnOk result (text.new ≡ text.old ++ numbers_text standing.now) }
{
    text.word(b" clock")?;
    numbered(text, standing.clock)?;
    text.word(b" attempt")?;
    numbered(text, standing.attempt)?;
    text.word(b" ")?;
    text.word(down_word(standing.down))?;
    text.word(b" #")?;
    text.large_number(standing.incarnation)
}

// The line of a role.
fn standing(
    text: &mut Writer,
    accepted: &Accepted,
    standing: &ToldStanding,
) -> Result<(), AllocError>
    requires { IsRole accepted.now standing.now.role }
    ensures { OnOk result (text.new ≡ text.old ++ again_text accepted.now (again.Role standing.now)) }
{
    place(text, accepted, standing)?;
    numbers(text, standing)
}

// `again flight FROM TO POINT LABEL VALUE @STAMP`
fn flight(text: &mut Writer, accepted: &Accepted, flight: &Flight) -> Result<(), AllocError>
    requires { HasEnds accepted.now flight.now }
    ensures { OnOk result (text.new ≡ text.old ++ again_text accepted.now (again.Flight flight.now)) }
{
    text.word(b"again flight")?;
    named(text, accepted, flight.from)?;
    named(text, accepted, flight.to)?;
    message(text, accepted, &flight.message)
}

// `again send ROLE POINT LABEL VALUE @STAMP`, or `again recv ROLE POINT LABEL VALUE @STAMP <SENT`
fn event(text: &mut Writer, accepted: &Accepted, event: &Event) -> Result<(), AllocError>
    requires role { IsRole accepted.now event.now.role }
    requires point { IsDeclared accepted.now event.now.point }
    ensures { OnOk result (text.new ≡ text.old ++ again_text accepted.now (again.Event event.now)) }
{
    text.word(match event.dir {
        Dir::Sent => b"again send",
        Dir::Got => b"again recv",
    })?;
    named(text, accepted, event.role)?;
    message(text, accepted, &event.message())?;
    match event.dir {
        Dir::Sent => Ok(()),
        Dir::Got => {
            text.word(b" <")?;
            text.large_number(event.sent)
        }
    }
}

// `again save ROLE COUNT`
fn save(text: &mut Writer, accepted: &Accepted, role: RoleId, count: u64) -> Result<(), AllocError>
    requires { IsRole accepted.now role }
    ensures { OnOk result (text.new ≡ text.old ++ again_text accepted.now (again.Save role count)) }
{
    text.word(b"again save")?;
    named(text, accepted, role)?;
    numbered(text, count)
}

// A line of a snapshot.
fn write_again(text: &mut Writer, accepted: &Accepted, line: &Again) -> Result<(), AllocError>
    requires { NamesInAgain accepted.now line.now }
    ensures { OnOk result (text.new ≡ text.old ++ again_line accepted.now line.now) }
{
    match line {
        Again::Session(told) => extent(text, accepted, told)?,
        Again::Role(told) => standing(text, accepted, told)?,
        Again::Flight(told) => flight(text, accepted, told)?,
        Again::Event(told) => event(text, accepted, told)?,
        Again::Save { role, count } => save(text, accepted, *role, *count)?,
    }
    text.word(b"\n")
}

/// The lines of a snapshot.
pub fn write_snapshot(
    text: &mut Writer,
    accepted: &Accepted,
    lines: &[Again],
) -> Result<(), AllocError>
    requires { All (NamesInAgain accepted.now) lines.now }
    ensures { OnOk result (text.new ≡ text.old ++ flat_map (again_line accepted.now) lines.now) }
{
    for line in lines {
        write_again(text, accepted, line)?;
    }
    Ok(())
}
