// An event as far as a cut looks at it.

ghost use Rattle.rcv_depend.specs.Logs.{IsMarkOf};

use rcv_tree::event::{Dir, Event};
use rcv_tree::point::Point;

/// The point of an event, and whether it is a Send or a Recv.
#[derive(Clone, Copy, Debug, PartialEq, Eq)]
pub struct Mark {
    pub point: Point,
    pub dir: Dir,
}

impl Mark {
    /// The mark of an event.
    #[inline(always)]
    pub fn of(event: &Event) -> Mark
        ensures { IsMarkOf event.now result }
    {
        Mark {
            point: event.point,
            dir: event.dir,
        }
    }
}
