// Cells go back to what a book keeps of their roles.

ghost use Rattle.rcv_rollback.specs.Back.{CanGoBack, HaveGoneBack};

use crate::halves::Half;
use crate::rewinding::rewind_all;
use crate::settling::settle_all;
use rcv_core::book::Book;

/// The cells of a half go back to what the book keeps: first the ends of their channels, then their parts. The ends of
/// cells that aren't in the half aren't touched: an inbox from such a cell goes back alone. It takes no memory.
pub fn go_back<'a>(book: &Book<'a>, half: &mut Half<'a>)
    requires { CanGoBack book.now half.old.items }
    ensures { HaveGoneBack book.now half.old.items half.new.items }
{
    rewind_all(book, half);
    settle_all(book, half);
}
