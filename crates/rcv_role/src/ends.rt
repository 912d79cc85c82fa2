// One end of a role's many, and what a step, a meeting or a recovery does to it.

ghost use Rattle.std.specs.Prelude.{◌≡◌, ◌+◌, ◌^◌, ◌<◌, ◌≤◌, length, slice_index_or};
ghost use Rattle.rcv_tree.specs.Events.{message_sent};
ghost use Rattle.rcv_ring.specs.Points.{CanPass};
ghost use Rattle.rcv_ring.specs.Lists.{Begins};
ghost use Rattle.rcv_mailbox.specs.Ends.{End, through, received, Knows, IsChannel};
ghost use Rattle.rcv_role.specs.Ends.{HasSent, HasReceived, IsSameAs, AreRewound, OthersStay, slot};

use rcv_mailbox::{Inbox, Post};
use rcv_tree::event::{Event, Message};
use rcv_tree::role::RoleId;

// The place of the ends between a role and another one in the role's lists.
pub fn slot(role: RoleId, other: RoleId) -> usize
    requires { other ≡ role → ⊥ }
    ensures { result ≡ slot role other }
{
    let at = other.0 as usize;
    if other.0 < role.0 { at } else { at - 1 }
}

// Sends the message of a Send, and says whether there was room.
pub fn send_to(posts: &mut Vec<Post>, at: usize, event: &Event) -> bool
    requires at { at < length posts.old.items }
    requires passes { (d : End) → CanPass (slice_index_or posts.old.items at d).base.points (message_sent event.now) }
    requires room { (d : End) → length (slice_index_or posts.old.items at d).list <
        (slice_index_or posts.old.items at d).limit }
    requires through { (d : End) → through (slice_index_or posts.old.items at d) < 2 ^ 62 }
    ensures others { OthersStay posts.old.items posts.new.items at }
    ensures sent { (d : End) → HasSent (slice_index_or posts.old.items at d) (slice_index_or posts.new.items at d)
        (message_sent event.now) result }
{
    let post = &mut posts[at];
    send(post, event)
}

fn send(post: &mut Post, event: &Event) -> bool
    requires passes { CanPass post.old.base.points (message_sent event.now) }
    requires room { length post.old.list < post.old.limit }
    requires through { through post.old < 2 ^ 62 }
    ensures { HasSent post.old post.new (message_sent event.now) result }
{
    post.send(event.message()).is_ok()
}

// Receives the next message, if there is one.
pub fn receive_from(inboxes: &mut Vec<Inbox>, at: usize) -> Option<Message>
    requires at { at < length inboxes.old.items }
    requires got { (d : End) → (slice_index_or inboxes.old.items at d).got <
        (slice_index_or inboxes.old.items at d).limit }
    ensures others { OthersStay inboxes.old.items inboxes.new.items at }
    ensures received { (d : End) → HasReceived (slice_index_or inboxes.old.items at d)
        (slice_index_or inboxes.new.items at d) result }
{
    let inbox = &mut inboxes[at];
    receive(inbox)
}

fn receive(inbox: &mut Inbox) -> Option<Message>
    requires { inbox.old.got < inbox.old.limit }
    ensures { HasReceived inbox.old inbox.new result }
{
    inbox.receive()
}

// Both ends of a channel learn what the other one did.
pub fn meet_at(inboxes: &mut Vec<Inbox>, at: usize, posts: &mut Vec<Post>, to: usize) -> u32
    requires places { (at < length inboxes.old.items) × (to < length posts.old.items) }
    requires channel { (d : End) → IsChannel (slice_index_or posts.old.items to d)
        (slice_index_or inboxes.old.items at d) }
    ensures other_inboxes { OthersStay inboxes.old.items inboxes.new.items at }
    ensures other_posts { OthersStay posts.old.items posts.new.items to }
    ensures inbox { (d : End) → IsSameAs (slice_index_or inboxes.old.items at d)
        (slice_index_or inboxes.new.items at d) }
    ensures post { (d : End) → IsSameAs (slice_index_or posts.old.items to d) (slice_index_or posts.new.items to d) }
    ensures through { (d : End) → through (slice_index_or posts.new.items to d)
        ≡ through (slice_index_or posts.old.items to d) }
    ensures begins { (d : End) → Begins (slice_index_or inboxes.old.items at d).list
        (slice_index_or posts.old.items to d).list }
    ensures held { (d : End) → length (slice_index_or posts.old.items to d).list
        ≡ length (slice_index_or inboxes.old.items at d).list + result }
    ensures inbox_knows { (d : End) → Knows (slice_index_or inboxes.new.items at d)
        (length (slice_index_or posts.old.items to d).list) }
    ensures post_knows { (d : End) → Knows (slice_index_or posts.new.items to d)
        (length (slice_index_or inboxes.old.items at d).list) }
{
    let inbox = &mut inboxes[at];
    let post = &mut posts[to];
    meet(inbox, post)
}

fn meet(inbox: &mut Inbox, post: &mut Post) -> u32
    requires { IsChannel post.old inbox.old }
    ensures inbox { IsSameAs inbox.old inbox.new }
    ensures post { IsSameAs post.old post.new }
    ensures through { through post.new ≡ through post.old }
    ensures begins { Begins inbox.old.list post.old.list }
    ensures held { length post.old.list ≡ length inbox.old.list + result }
    ensures inbox_knows { Knows inbox.new (length post.old.list) }
    ensures post_knows { Knows post.new (length inbox.old.list) }
    ensures channel { IsChannel post.new inbox.new }
{
    inbox.meet(post)
}

// Both ends of a channel go back.
pub fn rewind_at(
    inboxes: &mut Vec<Inbox>,
    at: usize,
    keep: u32,
    posts: &mut Vec<Post>,
    to: usize,
    drop_from: u32,
)
    requires places { (at < length inboxes.old.items) × (to < length posts.old.items) }
    requires channel { (d : End) → IsChannel (slice_index_or posts.old.items to d)
        (slice_index_or inboxes.old.items at d) }
    requires keep { (d : End) → keep ≤ (slice_index_or inboxes.old.items at d).got }
    requires order { keep ≤ drop_from }
    requires drop_from { (d : End) → drop_from ≤ length (slice_index_or posts.old.items to d).list }
    ensures other_inboxes { OthersStay inboxes.old.items inboxes.new.items at }
    ensures other_posts { OthersStay posts.old.items posts.new.items to }
    ensures rewound { (d : End) → AreRewound (slice_index_or posts.old.items to d)
        (slice_index_or posts.new.items to d) (slice_index_or inboxes.old.items at d)
        (slice_index_or inboxes.new.items at d) keep drop_from }
{
    let inbox = &mut inboxes[at];
    let post = &mut posts[to];
    rewind(inbox, keep, post, drop_from);
}

fn rewind(inbox: &mut Inbox, keep: u32, post: &mut Post, drop_from: u32)
    requires channel { IsChannel post.old inbox.old }
    requires keep { keep ≤ inbox.old.got }
    requires order { keep ≤ drop_from }
    requires drop_from { drop_from ≤ length post.old.list }
    ensures { AreRewound post.old post.new inbox.old inbox.new keep drop_from }
{
    // Tells that what was taken is the beginning of what was put.
    let _held = meet(inbox, post);
    inbox.rewind(keep, post, drop_from);
}

// One end of a channel goes back alone.
pub fn rewind_alone_at(inboxes: &mut Vec<Inbox>, at: usize, keep: u32)
    requires at { at < length inboxes.old.items }
    requires keep { (d : End) → keep ≤ (slice_index_or inboxes.old.items at d).got }
    ensures others { OthersStay inboxes.old.items inboxes.new.items at }
    ensures received { (d : End) → slice_index_or inboxes.new.items at d ≡ received
        (slice_index_or inboxes.old.items at d) keep }
{
    inboxes[at].rewind_alone(keep);
}
