// Forgetting: a new ledger replaces the old one, and holds what stays.

ghost use Rattle.std.specs.Prelude.{◌≡◌, ℕ, ◌+◌, ◌-◌, ◌<◌, ◌≤◌, ◌^◌, ◌==◌, if◌then◌else◌, pos, replicate, length, take};
ghost use Rattle.std.specs.Prelude.{slice_get, slice_index, slice_set, IfOk, IsOk, OnOk, MatchOption, Some};
ghost use Rattle.rcv_tree.specs.declared.event.Dir.TheVariants.{Sent, Got};
ghost use Rattle.rcv_model.specs.Run.{takes_on, put, taken};
ghost use Rattle.rcv_points.specs.Follow.{net_in};
ghost use Rattle.rcv_checkpoint.specs.Stack.{held, last_vars};
ghost use Rattle.rcv_depend.specs.Logs.{between, IsSound, AreSound};
ghost use Rattle.rcv_ledger.specs.Channels.{channel_at, HasFront};
ghost use Rattle.rcv_ledger.specs.Logs.{log_at};
ghost use Rattle.rcv_ledger.specs.Ledger.{stack_at, IsStart};
ghost use Rattle.rcv_guide.specs.Numbers.{numbers_at};
ghost use Rattle.rcv_tree.specs.Events.{point_or_none};
ghost use Rattle.rcv_guide.specs.Renewal.{AreOrdered, AreEnds, MayEnd, AreReceived, stays, with_one};
ghost use Rattle.rcv_guide.specs.Renewal.{ArePassed, AreAllPassed, HasRoomToAdd, IsLeast, IsNextEvent, IsRenewing, IsRenewed};
ghost use Rattle.rcv_guide.specs.Renewal.{forgotten_from, AreForgotten};

use crate::numbers::{Numbers, ROLES};
use rcv_checkpoint::changed::Changed;
use rcv_ledger::ledger::Ledger;
use rcv_points::points::Points;
use rcv_tree::event::{Dir, Event};
use rcv_tree::role::RoleId;
use rcv_tree::variables::Vars;
use std::alloc::{AllocError, Global};

// Channels among the roles.
const CHANNELS: usize = ROLES * ROLES;

/// A guide's roles have no variables.
pub const NO_VARS: Vars = Vars([0; 16]);

// So many of the first events of each role are gone over. They put so many messages on each channel.
#[derive(Drop)]
pub struct Passed {
    counts: [usize; ROLES],
    put: [usize; CHANNELS],
}

/// A role, and the stamp of its next event.
#[derive(Clone, Copy)]
pub struct Front {
    pub role: usize,
    stamp: u64,
}

/// How many logged events of each role, its first, are forgotten if so many more of it are. It takes no memory.
pub fn ends(numbers: &[Numbers], counts: &[u32; 8]) -> [usize; 8]
    requires { length numbers.now ≤ 8 }
    ensures { AreEnds numbers.now counts.now result }
{
    let mut ends = [0; ROLES];
    for role in 0..numbers.len() {
        ends[role] = numbers[role].seeds as usize + counts[role] as usize;
    }
    ends
}

// Whether an event of a role is a Recv from another.
fn takes(points: &Points, from: RoleId, to: RoleId, event: &Event) -> bool
    requires { IsSound (net_in points.now) to event.now }
    ensures { result ≡ takes_on (net_in points.now) from to event.now }
{
    match event.dir {
        Dir::Sent => false,
        Dir::Got => points.sender(event.point) == from,
    }
}

// How many messages from another role a role received in its first so many events.
fn received_from(ledger: &Ledger, points: &Points, from: RoleId, to: RoleId, end: usize) -> usize
    requires role { to < length ledger.now.logs }
    requires sound { AreSound (net_in points.now) ledger.now.logs }
    requires end { end ≤ length (log_at ledger.now.logs to) }
    ensures { result ≡ length (taken (net_in points.now) from to (take end (log_at ledger.now.logs to))) }
{
    let mut received = 0;
    for place in 0..end {
        if takes(points, from, to, ledger.event(to, place)) {
            received += 1;
        }
    }
    received
}

// How many messages on each channel the forgotten events received.
fn received(ledger: &Ledger, points: &Points, ends: &[usize; 8]) -> [usize; CHANNELS]
    requires ordered { AreOrdered (net_in points.now) ledger.now.logs }
    requires may { MayEnd (net_in points.now) ledger.now.logs ends.now }
    ensures { AreReceived (net_in points.now) ledger.now.logs ends.now result }
{
    let mut received = [0; CHANNELS];
    for place in 0..CHANNELS {
        let from = place / ROLES;
        let to = place % ROLES;
        if to < ledger.roles() {
            received[place] = received_from(
                ledger,
                points,
                RoleId(from as u8),
                RoleId(to as u8),
                ends[to],
            );
        }
    }
    received
}

impl Passed {
    // None.
    fn new() -> Passed
        ensures counts { result.counts ≡ replicate 8 0 }
        ensures put { result.put ≡ replicate 64 0 }
    {
        Passed {
            counts: [0; ROLES],
            put: [0; CHANNELS],
        }
    }

    // The next event of a role.
    fn add(&mut self, points: &Points, role: usize, event: &Event)
        requires role { role < 8 }
        requires sound { IsSound (net_in points.now) role event.now }
        requires count { slice_index self.old.counts role + 1 < 2 ^ 64 }
        requires put { slice_index self.old.put (between role ((net_in points.now).receiver event.now.point)) + 1 < 2 ^ 64 }
        ensures counts { self.new.counts ≡ slice_set self.old.counts role (slice_index self.old.counts role + 1) }
        ensures sent { event.now.dir ≡ Sent → self.new.put
            ≡ slice_set self.old.put (between role ((net_in points.now).receiver event.now.point))
            (slice_index self.old.put (between role ((net_in points.now).receiver event.now.point)) + 1) }
        ensures got { event.now.dir ≡ Got → self.new.put ≡ self.old.put }
    {
        self.counts[role] += 1;
        if event.dir == Dir::Sent {
            self.put[role * ROLES + points.receiver(event.point).0 as usize] += 1;
        }
    }

    // Whether the next event of a role stays.
    fn keeps(
        &self,
        points: &Points,
        received: &[usize; CHANNELS],
        end: usize,
        role: usize,
        event: &Event,
    ) -> bool
        requires role { role < 8 }
        requires sound { IsSound (net_in points.now) role event.now }
        ensures { result ≡ stays (net_in points.now) (λ b. slice_index received.now (between role b))
            (λ b. slice_index self.now.put (between role b)) end (slice_index self.now.counts role) event.now }
    {
        match event.dir {
            Dir::Sent => {
                let place = role * ROLES + points.receiver(event.point).0 as usize;
                received[place] <= self.put[place]
            }
            Dir::Got => end <= self.counts[role],
        }
    }
}

/// The role whose next event, after so many of each role, has the least stamp. None if no role has a next event.
pub fn least_next(ledger: &Ledger, counts: &[usize; ROLES]) -> Option<Front>
    requires { length ledger.now.logs ≤ 8 }
    ensures { MatchOption result (AreAllPassed ledger.now.logs counts.now (length ledger.now.logs))
        (IsLeast ledger.now.logs counts.now (length ledger.now.logs)) }
{
    let mut best: Option<Front> = None;
    for role in 0..ledger.roles() {
        let own = RoleId(role as u8);
        if counts[role] < ledger.made(own) {
            let stamp = ledger.event(own, counts[role]).stamp;
            best = Some(first_of(best, Front { role, stamp }));
        }
    }
    best
}

// The one of two with the lesser stamp: the former, if they have the same stamp.
fn first_of(former: Option<Front>, latter: Front) -> Front
    ensures former { MatchOption former (result ≡ latter) (λ front. front.stamp ≤ latter.stamp → result ≡ front) }
    ensures latter { MatchOption former (result ≡ latter) (λ front. latter.stamp < front.stamp → result ≡ latter) }
{
    match former {
        Some(front) if front.stamp <= latter.stamp => front,
        _ => latter,
    }
}

/// Adds an event of a role with a log. Within the ledger's room it always succeeds. Else it fails if memory runs out.
pub fn add_event(fresh: &mut Ledger, points: &Points, event: &Event) -> Result<(), AllocError>
    requires role { event.now.role < length fresh.old.logs }
    requires sound { IsSound (net_in points.now) event.now.role event.now }
    requires change { replicate 16 (pos 0) ≡ last_vars (stack_at fresh.old.stacks event.now.role) }
    requires waits { event.now.dir ≡ Got
        → HasFront (channel_at fresh.old.channels ((net_in points.now).sender event.now.point) event.now.role) }
    requires few { held (stack_at fresh.old.stacks event.now.role) + 1 < 2 ^ 32 }
    requires few_entries { length fresh.old.entries < 2 ^ 32 }
    ensures ok { OnOk result (fresh.new ≡ with_one (net_in points.now) fresh.old event.now (replicate 16 (pos 0))) }
    ensures room { HasRoomToAdd (net_in points.now) fresh.old event.now event.now.dir → IsOk result }
{
    match event.dir {
        Dir::Sent => fresh.add_send(
            event,
            points.receiver(event.point),
            &NO_VARS,
            Changed::Nothing,
        ),
        Dir::Got => fresh.add_recv(
            event,
            points.sender(event.point),
            &NO_VARS,
            Changed::Nothing,
        ),
    }
}

// Goes over the next event of a role, and adds it if it stays. Fails if memory runs out.
fn go_over(
    fresh: &mut Ledger,
    passed: &mut Passed,
    ledger: &Ledger,
    points: &Points,
    received: &[usize; CHANNELS],
    ends: &[usize; 8],
    role: usize,
    room: u32,
) -> Result<(), AllocError>
    requires ordered { AreOrdered (net_in points.now) ledger.now.logs }
    requires may { MayEnd (net_in points.now) ledger.now.logs ends.now }
    requires received { AreReceived (net_in points.now) ledger.now.logs ends.now received.now }
    requires passed { ArePassed (net_in points.now) ledger.now.logs passed.old.counts passed.old.put }
    requires next { IsNextEvent (net_in points.now) ledger.now.logs passed.old.counts role }
    requires fresh { IsRenewing (net_in points.now) ledger.now.logs ends.now room passed.old.counts fresh.old }
    ensures passed { OnOk result (ArePassed (net_in points.now) ledger.now.logs passed.new.counts passed.new.put) }
    ensures counts { OnOk result (passed.new.counts ≡ slice_set passed.old.counts role (slice_index passed.old.counts role + 1)) }
    ensures fresh { OnOk result (IsRenewing (net_in points.now) ledger.now.logs ends.now room passed.new.counts fresh.new) }
{
    let event = ledger.event(RoleId(role as u8), passed.counts[role]);
    if passed.keeps(points, received, ends[role], role, event) {
        add_event(fresh, points, event)?;
    }
    passed.add(points, role, event);
    Ok(())
}

/// A ledger without events, for so many roles, with room for so many events. Fails if memory runs out.
pub fn empty(alloc: Global, roles: usize, room: u32) -> Result<Ledger, AllocError>
    requires { roles ≤ 8 }
    ensures { IfOk result (λ fresh. IsStart (replicate roles (replicate 16 (pos 0))) (replicate roles 1) room room fresh) }
{
    let mut firsts = Vec::new(alloc);
    let mut everys = Vec::new(alloc);
    for _role in 0..roles {
        firsts.push(NO_VARS)?;
        everys.push(1)?;
    }
    Ledger::new(
        alloc,
        firsts.as_slice(),
        everys.as_slice(),
        room,
        room as usize,
    )
}

/// A ledger with room for so many events. It holds what stays if so many of each role are forgotten: the events after
/// these, and those Sends among these whose messages aren't received among them. It adds them in the order of their
/// stamps. Fails if memory runs out.
pub fn renewed(
    alloc: Global,
    ledger: &Ledger,
    points: &Points,
    ends: &[usize; 8],
    room: u32,
) -> Result<Ledger, AllocError>
    requires ordered { AreOrdered (net_in points.now) ledger.now.logs }
    requires may { MayEnd (net_in points.now) ledger.now.logs ends.now }
    ensures { IfOk result (IsRenewed (net_in points.now) ledger.now.logs ends.now room) }
{
    let received = received(ledger, points, ends);
    let mut fresh = empty(alloc, ledger.roles(), room)?;
    let mut passed = Passed::new();
    while let Some(front) = least_next(ledger, &passed.counts) {
        go_over(
            &mut fresh,
            &mut passed,
            ledger,
            points,
            &received,
            ends,
            front.role,
            room,
        )?;
    }
    Ok(fresh)
}

// The point of the last of a role's forgotten events, if so many more are forgotten, up to this place of its log.
fn point_behind(ledger: &Ledger, role: usize, own: &Numbers, count: u32, end: usize) -> u16
    requires role { role < length ledger.now.logs }
    requires few { role < 8 }
    requires end { end ≤ length (log_at ledger.now.logs role) }
    requires some { count ≤ end }
    ensures { result ≡ (if count == 0 then own.now.point else point_or_none (slice_get (log_at ledger.now.logs role) (end - 1))) }
{
    if count == 0 {
        return own.point;
    }
    ledger.event(RoleId(role as u8), end - 1).point.0
}

// The numbers of a role after forgetting.
fn numbers_behind(
    ledger: &Ledger,
    fresh: &Ledger,
    role: usize,
    own: &Numbers,
    count: u32,
    end: usize,
) -> Numbers
    requires role { role < length ledger.now.logs }
    requires few { role < 8 }
    requires same { role < length fresh.now.logs }
    requires end { end ≤ length (log_at ledger.now.logs role) }
    requires some { count ≤ end }
    requires seeds { length (log_at ledger.now.logs role) - end ≤ length (log_at fresh.now.logs role) }
    requires size { length (log_at fresh.now.logs role) < 2 ^ 31 }
    requires forgotten { own.now.forgotten + count < 2 ^ 64 }
    ensures { result ≡ forgotten_from (log_at ledger.now.logs role) end count (length (log_at fresh.now.logs role)) own.now }
{
    let number = RoleId(role as u8);
    let behind = ledger.made(number) - end;
    Numbers {
        seeds: (fresh.made(number) - behind) as u32,
        forgotten: own.forgotten + count as u64,
        point: point_behind(ledger, role, own, count, end),
        raw: own.raw,
        attempt: own.attempt,
        clock: own.clock,
        down: own.down,
    }
}

/// Records that so many more events of each role are forgotten, up to these places of the old ledger's logs. What stays
/// of them are the first events in the new ledger's logs.
pub fn forget(
    numbers: &mut Vec<Numbers>,
    ledger: &Ledger,
    fresh: &Ledger,
    counts: &[u32; 8],
    ends: &[usize; 8],
)
    requires eight { length numbers.old.items ≤ 8 }
    requires same { length ledger.now.logs ≡ length numbers.old.items }
    requires fresh { length fresh.now.logs ≡ length numbers.old.items }
    requires ends { AreEnds numbers.old.items counts.now ends.now }
    requires made { (r : ℕ) → r < length numbers.old.items → slice_index ends.now r ≤ length (log_at ledger.now.logs r) }
    requires seeds { (r : ℕ) → r < length numbers.old.items
        → length (log_at ledger.now.logs r) - slice_index ends.now r ≤ length (log_at fresh.now.logs r) }
    requires size { (r : ℕ) → r < length numbers.old.items → length (log_at fresh.now.logs r) < 2 ^ 31 }
    requires forgotten { (r : ℕ) → r < length numbers.old.items
        → (numbers_at numbers.old.items r).forgotten + slice_index counts.now r < 2 ^ 64 }
    ensures { AreForgotten numbers.old.items numbers.new.items ledger.now.logs fresh.now.logs counts.now ends.now }
{
    for role in 0..numbers.len() {
        let old = numbers[role];
        numbers[role] = numbers_behind(ledger, fresh, role, &old, counts[role], ends[role]);
    }
}
