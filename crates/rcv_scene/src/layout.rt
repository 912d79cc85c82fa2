// Where the columns and the rows of a picture stand.

ghost use Rattle.std.specs.Prelude.{◌≡◌, ◌↔◌, IsTrue, IfOk, OnOk, IfSome, IfNone, slice_get};
ghost use Rattle.rcv_scene.specs.Wires.{again_at};
ghost use Rattle.rcv_scene.specs.Folds.{undone_at};
ghost use Rattle.rcv_scene.specs.Grid.{AreBeside, AreBelow, IsBelow, PutsAt, IsLayoutOf, IsProper, StandsAt, IsOwnHeight, column, grid_of, scene_of};

use crate::cast::{Cast, Role};
use crate::ends::{End, RoleEnd};
use crate::label_text::text_of_label;
use crate::notes::width_of_notes;
use crate::wording::{Piece, text_of};
use rcv_core::setup::Setup;
use rcv_picture::group::Says;
use rcv_picture::letters::{Letters, wide, width_of};
use rcv_picture::name_lines::lines_of_name;
use rcv_picture::pixels::Pixels;
use rcv_picture::short_name::{LABEL, shortened};
use rcv_story::story::Story;
use rcv_tree::entry::Entry;
use rcv_tree::event::Event;
use std::alloc::{AllocError, Global};

/// The heights of rows: of a Recover, of a fold, and of another entry.
pub const RECOVER_ROW: Pixels = Pixels(54);

pub const FOLD_ROW: Pixels = Pixels(46);

pub const ENTRY_ROW: Pixels = Pixels(24);

/// The height of a role's foot.
pub const FOOT: Pixels = Pixels(36);

// The height of a line of a head, and of what stands in a head beside its lines.
const HEAD_LINE: Pixels = Pixels(15);

const HEAD_REST: Pixels = Pixels(12);

const HOST_LINE: Pixels = Pixels(13);

/// Where the title ends, and how high the bar over a folded journal is.
const TITLE: Pixels = Pixels(44);

const BAR: Pixels = Pixels(78);

/// A row: of one entry, or of a fold.
#[derive(Clone, Copy)]
pub struct Row {
    pub top: Pixels,
    /// The height at which its mark stands.
    pub middle: Pixels,
    pub bottom: Pixels,
    pub shown: bool,
}

/// Where an entry stands: at the middle of a row of its own, or in the row of a fold.
#[derive(Clone, Copy)]
pub enum Stand {
    Own(Pixels),
    Folded(Row),
}

/// Where everything stands.
#[derive(Drop)]
pub struct Layout<'a> {
    pub alloc: Global,
    pub cast: Cast<'a>,
    pub setup: &'a Setup,
    pub entries: &'a [Entry],
    pub story: &'a Story,
    /// What each row says.
    pub says: &'a [Says],
    /// For each entry whether its event isn't kept at the end.
    pub undone: Vec<bool>,
    /// What stands above all.
    pub title: Vec<u8>,
    /// Whether some entries are folded.
    pub folded: bool,
    /// Where the numbers of the rows end.
    pub numbers: Pixels,
    /// Where the first column begins, and how wide each is.
    pub left: Pixels,
    pub column: Pixels,
    /// Where notes beside the columns begin.
    pub notes: Pixels,
    pub width: Pixels,
    /// Where the heads begin and end, and where the feet begin.
    pub top: Pixels,
    pub first: Pixels,
    pub end: Pixels,
    /// The middle of each role's column.
    columns: Vec<Pixels>,
    /// The rows, and for each entry the number of its row.
    rows: Vec<Row>,
    row_of: Vec<u32>,
}

// How wide a mark is at least, and how high a row is at least on each side of its middle.
const MARK_WIDTH: u64 = 40;

const HALF_ROW: u64 = 10;

// How many digits a number has.
fn digits(number: u32) -> usize {
    let mut digits: usize = 1;
    let mut rest = number;
    for _ in 0..9 {
        if rest >= 10 {
            rest /= 10;
            digits = digits.saturating_add(1);
        }
    }
    digits
}

// How many entries there are, as a u32.
fn count_of(entries: &[Entry]) -> u32 {
    entries.len().min(u32::MAX as usize) as u32
}

// Whether all roles are done.
fn are_done(ends: &[RoleEnd]) -> bool {
    for role in ends {
        if role.end != End::Done {
            return false;
        }
    }
    true
}

// What stands above all: the protocol, how many entries there are, and how the session ended.
fn title_of(
    alloc: Global,
    cast: &Cast<'_>,
    entries: &[Entry],
    ends: &[RoleEnd],
) -> Result<Vec<u8>, AllocError> {
    let start = [
        Piece::Word(cast.name),
        Piece::Word(b": "),
        Piece::Number(count_of(entries)),
        Piece::Word(if entries.len() == 1 {
            b" entry, ".as_slice()
        } else {
            b" entries, ".as_slice()
        }),
    ];
    let mut title = text_of(alloc, &start)?;
    if are_done(ends) {
        title.extend_from_slice(b"completed")?;
        return Ok(title);
    }
    if !ends.iter().any(|role| role.end == End::Limit) {
        title.extend_from_slice(b"open")?;
        return Ok(title);
    }
    title.extend_from_slice(b"limited at")?;
    for role in ends {
        if role.end == End::Limit {
            title.extend_from_slice(b" ")?;
            title.extend_from_slice(shortened(
                alloc,
                cast.name_of(role.role.0),
                LABEL,
            )?.as_slice())?;
        }
    }
    Ok(title)
}

// The lines of all names.
fn names_of<'a>(alloc: Global, roles: &[Role<'a>]) -> Result<Vec<Vec<&'a [u8]>>, AllocError> {
    let mut names = Vec::new(alloc);
    for role in roles {
        names.push(lines_of_name(alloc, role.name)?)?;
    }
    Ok(names)
}

// The width of the widest of these lines, and the number of lines of the longest name.
fn sizes_of(names: &[Vec<&[u8]>]) -> (Pixels, u32) {
    let mut widest = Pixels(0);
    let mut most: u32 = 1;
    for lines in names {
        let mut count: u32 = 0;
        for line in lines.iter() {
            widest = widest.max(width_of(line, Letters::Head));
            count = count.saturating_add(1);
        }
        most = most.max(count);
    }
    (widest, most)
}

// The width of the widest label of the entries that have rows of their own.
fn widest_label(
    alloc: Global,
    cast: &Cast<'_>,
    entries: &[Entry],
    rows: &[Says],
) -> Result<Pixels, AllocError> {
    let mut widest = Pixels(60);
    for row in rows {
        if let Says::Entry { place, .. } = row {
            match entries.get(*place as usize) {
                Some(Entry::Send(event)) | Some(Entry::Recv(event)) => {
                    let label = text_of_label(alloc, cast.points, event)?;
                    widest = widest.max(width_of(label.as_slice(), Letters::Plain));
                }
                _ => {}
            }
        }
    }
    Ok(widest)
}

// If a Recv's label stands away from the sender, it ends at most so far from the middle of its column.
fn width_of_note(
    alloc: Global,
    cast: &Cast<'_>,
    event: &Event,
    again: bool,
) -> Result<Pixels, AllocError> {
    let label = text_of_label(alloc, cast.points, event)?;
    let more = if again { Pixels(36) } else { Pixels(0) };
    Ok(width_of(label.as_slice(), Letters::Small) + more + Pixels(18))
}

// Whether the Recv at a place may have a label away from its sender: if it was received before, or is far from its
// Send.
fn may_be_noted(story: &Story, at: u32) -> bool {
    match story.send_of(at) {
        Some(send) => at.saturating_sub(send) > 3 || story.is_again(at),
        None => false,
    }
}

// How far labels go at the outer side of the first and of the last column, from the column's middle.
fn widest_outer(
    alloc: Global,
    cast: &Cast<'_>,
    entries: &[Entry],
    story: &Story,
    rows: &[Says],
) -> Result<(Pixels, Pixels), AllocError> {
    let mut widest = (Pixels(0), Pixels(0));
    let last = cast.count().saturating_sub(1);
    for row in rows {
        let Says::Entry { place, .. } = row else {
            continue;
        };
        let Some(Entry::Recv(event)) = entries.get(*place as usize) else {
            continue;
        };
        if !may_be_noted(story, *place) {
            continue;
        }
        let width = width_of_note(alloc, cast, event, story.is_again(*place))?;
        if event.role.0 == 0 {
            widest.0 = widest.0.max(width);
        }
        if u32::from(event.role.0) == last {
            widest.1 = widest.1.max(width);
        }
    }
    Ok(widest)
}

// How many entries the longest fold has; 0 if nothing is folded.
fn longest_fold(rows: &[Says]) -> u32 {
    let mut longest: u32 = 0;
    for row in rows {
        if let Says::Fold { first, end, .. } = row {
            longest = longest.max(end.saturating_sub(*first));
        }
    }
    longest
}

// Whether a row is that of a Recover.
fn is_recover(entries: &[Entry], place: u32) -> bool {
    matches!(entries.get(place as usize), Some(Entry::Recover { .. }))
}

// The width of the widest label that stands in full at the foot.
fn widest_foot(cast: &Cast<'_>) -> Pixels {
    let mut widest = Pixels(0);
    for message in cast.messages.iter() {
        if message.label.len() > LABEL {
            widest = widest.max(width_of(message.label, Letters::Small));
        }
    }
    widest
}

// For each entry the number of its row.
fn rows_of_entries(
    alloc: Global,
    entries: &[Entry],
    rows: &[Says],
) -> Result<Vec<u32>, AllocError> {
    let mut row_of = Vec::new(alloc);
    for _ in entries {
        row_of.push(0)?;
    }
    let mut number: u32 = 0;
    for row in rows {
        match row {
            Says::Entry { place, .. } => set(&mut row_of, *place as usize, number),
            Says::Fold { first, end, .. } => {
                for place in *first as usize..(*end as usize).min(entries.len()) {
                    set(&mut row_of, place, number);
                }
            }
            Says::Arrow { .. } | Says::Nothing => {}
        }
        number = number.saturating_add(1);
    }
    Ok(row_of)
}

// Sets one of these, if it is there.
fn set(items: &mut Vec<u32>, number: usize, item: u32) {
    if let Some(slot) = items.get_mut(number) {
        *slot = item;
    }
}

// The rows, from this height downwards.
fn rows_from(
    alloc: Global,
    entries: &[Entry],
    rows: &[Says],
    top: Pixels,
) -> Result<Vec<Row>, AllocError> {
    let mut placed = Vec::new(alloc);
    let mut at = top;
    for row in rows {
        let (height, shown) = match row {
            Says::Entry { place, .. } => {
                let height = if is_recover(entries, *place) {
                    RECOVER_ROW
                } else {
                    ENTRY_ROW
                };
                (height, true)
            }
            Says::Fold { .. } => (FOLD_ROW, false),
            Says::Arrow { .. } | Says::Nothing => (ENTRY_ROW, false),
        };
        placed.push(Row {
            top: at,
            middle: at + height.half(),
            bottom: at + height,
            shown,
        })?;
        at = at + height;
    }
    Ok(placed)
}

// The middles of so many columns of this width, from here to the right.
fn columns_from(
    alloc: Global,
    count: u32,
    left: Pixels,
    column: Pixels,
) -> Result<Vec<Pixels>, AllocError> {
    let mut columns = Vec::new(alloc);
    for role in 0..count {
        columns.push(left + column * role + column.half())?;
    }
    Ok(columns)
}

// Whether each of these columns stands at least the width of a mark to the right of the one before it.
fn are_beside(columns: &[Pixels]) -> bool
    ensures { IsTrue result → AreBeside 0 columns.now }
{
    let mut least: u64 = 0;
    for x in columns {
        if u64::from(x.0) < least {
            return false;
        }
        least = u64::from(x.0) + MARK_WIDTH;
    }
    true
}

// Whether a row begins here or lower, and its middle is between its edges.
fn is_below(row: &Row, least: u32) -> bool
    ensures { IsTrue result ↔ IsBelow least row.now }
{
    let top = u64::from(row.top.0);
    let middle = u64::from(row.middle.0);
    least <= row.top.0 && top + HALF_ROW <= middle && middle + HALF_ROW <= u64::from(row.bottom.0)
}

// Whether each of these rows stands under the one before it.
fn are_below(rows: &[Row]) -> bool
    ensures { IsTrue result → AreBelow 0 rows.now }
{
    let mut least = 0;
    for row in rows {
        if !is_below(row, least) {
            return false;
        }
        least = row.bottom.0;
    }
    true
}

// The mark of the entry at a place, if there is one.
fn mark_in(marks: &[bool], at: usize) -> Option<&bool>
    ensures none { IfNone result (slice_get marks.now at ≡ None) }
    ensures some { IfSome result (λ found. slice_get marks.now at ≡ Some found.now) }
{
    marks.get(at)
}

// Where an entry stands if this row holds it; none if the row doesn't hold it.
fn stand_in(says: &Says, row: &Row, at: u32) -> Option<Stand>
    ensures { IfSome result (λ stand. PutsAt says.now row.now at stand) }
{
    match says {
        Says::Entry { place, .. } => {
            if *place == at {
                Some(Stand::Own(row.middle))
            } else {
                None
            }
        }
        Says::Fold { first, end, .. } => {
            if *first <= at && at < *end {
                Some(Stand::Folded(*row))
            } else {
                None
            }
        }
        Says::Arrow { .. } | Says::Nothing => None,
    }
}

// Where the last of these rows ends.
fn end_of(rows: &[Row], top: Pixels) -> Pixels {
    match rows.last() {
        Some(row) => row.bottom,
        None => top,
    }
}

/// Where everything stands in a picture that has these rows. Fails if memory runs out.
pub fn lay_out<'a>(
    alloc: Global,
    cast: Cast<'a>,
    setup: &'a Setup,
    entries: &'a [Entry],
    undone: Vec<bool>,
    story: &'a Story,
    ends: &[RoleEnd],
    rows: &'a [Says],
) -> Result<Layout<'a>, AllocError>
    ensures { IfOk result (λ l. IsLayoutOf setup.now cast.entry.points.now rows.now entries.now undone.items story.now l) }
{
    let names = names_of(alloc, cast.roles.as_slice())?;
    let (widest_name, most_lines) = sizes_of(names.as_slice());
    let fold = longest_fold(rows);
    let numbers = wide(digits(count_of(entries)).saturating_add(1), Letters::Small);
    let numbers = Pixels(42).max(numbers + Pixels(6));
    let mut column = Pixels(132)
        .max(widest_label(alloc, &cast, entries, rows)? + Pixels(74))
        .max(widest_name + Pixels(20));
    if fold > 0 {
        let counts = wide(
            digits(fold).saturating_mul(2).saturating_add(12),
            Letters::Small,
        );
        column = column.max(counts + Pixels(12));
    }
    let outer = widest_outer(alloc, &cast, entries, story, rows)?;
    let left = numbers + Pixels(10) + (outer.0 - column.half());
    let notes = left + column * cast.count() + Pixels(12);
    let beside = width_of_notes(alloc, &cast, entries, rows)?.max(outer.1 - column.half());
    let title = title_of(alloc, &cast, entries, ends)?;
    let foot = widest_foot(&cast);
    let width = (notes + beside + Pixels(12))
        .max(width_of(title.as_slice(), Letters::Big) + Pixels(24))
        .max(if foot.0 > 0 {
            left + foot + Pixels(80)
        } else {
            Pixels(0)
        })
        .max(left + Pixels(280));
    let top = if fold > 0 { TITLE + BAR } else { TITLE };
    let hosts = if cast.roles.iter().any(|role| role.host.is_some()) {
        HOST_LINE
    } else {
        Pixels(0)
    };
    let first = top + HEAD_LINE * most_lines + HEAD_REST + hosts;
    let start = first + Pixels(10);
    let placed = rows_from(alloc, entries, rows, start)?;
    let end = end_of(placed.as_slice(), start) + Pixels(8);
    let columns = columns_from(alloc, cast.count(), left, column)?;
    Ok(Layout {
        alloc,
        cast,
        setup,
        entries,
        story,
        says: rows,
        undone,
        title,
        folded: fold > 0,
        numbers,
        left,
        column,
        notes,
        width,
        top,
        first,
        end,
        columns,
        rows: placed,
        row_of: rows_of_entries(alloc, entries, rows)?,
    })
}

impl<'a> Layout<'a> {
    /// Makes each column so much wider. Fails if memory runs out.
    pub fn widen(&mut self, more: Pixels) -> Result<(), AllocError>
        ensures { OnOk result (IsLayoutOf self.old.setup.now self.old.cast.points.now self.old.says.now self.old.entries.now self.old.undone.items self.old.story.now self.new) }
    {
        let all = more * self.cast.count();
        self.column = self.column + more;
        self.notes = self.notes + all;
        self.width = self.width + all;
        self.columns = columns_from(self.alloc, self.cast.count(), self.left, self.column)?;
        Ok(())
    }

    /// Whether each of so many roles has a column, all that is said has a row, and no two of them meet.
    pub fn is_proper(&self, roles: u8) -> bool
        ensures { IsTrue result → IsProper roles self.now.says.now (grid_of self.now) }
    {
        self.columns.len() == roles as usize
            && self.rows.len() == self.says.len()
            && are_beside(self.columns.as_slice())
            && are_below(self.rows.as_slice())
    }

    // The middle of a role's column, if it has one.
    fn column_at(&self, role: usize) -> Option<&Pixels>
        ensures none { IfNone result (slice_get self.now.columns.items role ≡ None) }
        ensures some { IfSome result (λ x. slice_get self.now.columns.items role ≡ Some x.now) }
    {
        self.columns.as_slice().get(role)
    }

    // The row with a number, if there is one, and what it says.
    fn row_at(&self, number: usize) -> Option<&Row>
        ensures { IfSome result (λ row. slice_get self.now.rows.items number ≡ Some row.now) }
    {
        self.rows.as_slice().get(number)
    }

    fn said_at(&self, number: usize) -> Option<&Says>
        ensures { IfSome result (λ says. slice_get self.now.says.now number ≡ Some says.now) }
    {
        self.says.get(number)
    }

    /// Where the entry at a place stands. If no row holds the place, it fails as if memory ran out.
    pub fn stand(&self, at: u32) -> Result<Stand, AllocError>
        ensures { IfOk result (λ stand. StandsAt (scene_of self.now) at stand) }
    {
        let number = self.row_number(at) as usize;
        let Some(says) = self.said_at(number) else {
            return Err(AllocError);
        };
        let Some(row) = self.row_at(number) else {
            return Err(AllocError);
        };
        match stand_in(says, row, at) {
            Some(stand) => Ok(stand),
            None => Err(AllocError),
        }
    }

    /// The height of the row that the entry at a place has of its own. If it has none, this fails as if memory ran out.
    pub fn own_height(&self, at: u32) -> Result<Pixels, AllocError>
        ensures { IfOk result (λ y. IsOwnHeight (scene_of self.now) at y) }
    {
        match self.stand(at)? {
            Stand::Own(y) => Ok(y),
            Stand::Folded(_) => Err(AllocError),
        }
    }

    /// The middle of a role's column.
    pub fn x(&self, role: u8) -> Pixels
        ensures { result ≡ column (grid_of self.now) role }
    {
        match self.column_at(role as usize) {
            Some(x) => *x,
            None => Pixels(0),
        }
    }

    /// The entry at a place, if there is one.
    pub fn entry_at(&self, at: u32) -> Option<&Entry>
        ensures none { IfNone result (slice_get self.now.entries.now at ≡ None) }
        ensures some { IfSome result (λ entry. slice_get self.now.entries.now at ≡ Some entry.now) }
    {
        self.entries.get(at as usize)
    }

    /// Whether the entry at a place is an event that isn't kept at the end.
    pub fn is_undone(&self, at: u32) -> bool
        ensures { result ≡ undone_at (scene_of self.now) at }
    {
        match mark_in(self.undone.as_slice(), at as usize) {
            Some(undone) => *undone,
            None => false,
        }
    }

    /// Whether the Recv at a place takes a message that had been received before.
    pub fn is_again(&self, at: u32) -> bool
        ensures { result ≡ again_at (scene_of self.now) at }
    {
        match mark_in(self.story.again.as_slice(), at as usize) {
            Some(again) => *again,
            None => false,
        }
    }

    /// How wide all columns are.
    pub fn width_of_columns(&self) -> Pixels {
        self.column * self.cast.count()
    }

    /// How many roles there are, at most eight.
    pub fn roles(&self) -> u8 {
        self.cast.roles.len().min(8) as u8
    }

    /// How many entries there are.
    pub fn count(&self) -> u32 {
        count_of(self.entries)
    }

    /// The entry at a place.
    pub fn entry(&self, at: u32) -> Option<Entry> {
        self.entries.get(at as usize).copied()
    }

    /// The event at a place, if there is one.
    pub fn event(&self, at: u32) -> Option<Event> {
        match self.entries.get(at as usize) {
            Some(Entry::Send(event)) | Some(Entry::Recv(event)) => Some(*event),
            _ => None,
        }
    }

    /// The number of the row of the entry at a place.
    pub fn row_number(&self, at: u32) -> u32 {
        self.row_of.get(at as usize).copied().unwrap_or(0)
    }

    /// The row of the entry at a place.
    pub fn row(&self, at: u32) -> Row {
        let number = self.row_number(at);
        match self.rows.get(number as usize) {
            Some(row) => *row,
            None => Row {
                top: self.first,
                middle: self.first,
                bottom: self.first,
                shown: false,
            },
        }
    }

    /// The height of the mark of the entry at a place; the middle of its fold if it is folded.
    pub fn y(&self, at: u32) -> Pixels {
        self.row(at).middle
    }

    /// Whether two entries have rows of their own, one right under the other.
    pub fn are_neighbours(&self, above: u32, below: u32) -> bool {
        let next = self.row_number(above).saturating_add(1);
        self.is_shown(above) && self.is_shown(below) && self.row_number(below) == next
    }

    /// Whether the entry at a place has a row of its own.
    pub fn is_shown(&self, at: u32) -> bool {
        self.row(at).shown
    }
}
