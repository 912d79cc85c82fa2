// Marks of places.

ghost use Rattle.std.specs.Prelude.{◌↔◌, IsTrue};
ghost use Rattle.rcv_rows.specs.Told.{IsMarked};

// Whether the place is marked.
pub fn is_marked(marks: &[bool], place: usize) -> bool
    ensures { IsTrue result ↔ IsMarked marks.now place }
{
    match marks.get(place) {
        Some(mark) => *mark,
        None => false,
    }
}
