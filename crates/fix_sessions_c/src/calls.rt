//! The events of a session.
ghost use Rattle.std.specs.Prelude.{◌≡◌, ℕ, List, Option, true, false, Some, None};
ghost use Rattle.fix_fields.specs.Frame.{Field, frame_of};
ghost use Rattle.fix_sessions.specs.declared.orders.Order.{Order};
ghost use Rattle.fix_sessions.specs.declared.state.Clock.{Clock};
ghost use Rattle.fix_sessions.specs.declared.texts.Names.{Names};
ghost use Rattle.fix_sessions.specs.declared.turns.Denial.{Denial};
ghost use Rattle.fix_sessions.specs.declared.turns.Stored.{Stored};
ghost use Rattle.fix_sessions.specs.Steps as steps;
ghost use Rattle.fix_sessions.specs.Sending as sending;
ghost use Rattle.fix_sessions_c.specs.States.{read, shown};
ghost use Rattle.fix_sessions_c.specs.Told.{IsClock, IsDenial, IsTold, IsStored, AreNamed, order_of};

use crate::parts::{Setting, denial_of, said_text};
use crate::states::{SessionState, read, shown};
use crate::told::{Told, tell};
use fix_fields::{Moment, read_frame};
use fix_sessions::{
    Body, Order, Stored, came, given, gone, hands, log_out, new_session, ordered, tick,
};
use std::alloc::Global;

/// The session of a day that begins.
#[unsafe(no_mangle)]
pub extern "C" fn fix_sessions_new(session: &mut SessionState)
    ensures { session.new ≡ shown steps.new_session }
{
    *session = shown(&new_session());
}

/// A message came on a connection: all of its bytes, and no more. `is_known`: the credentials of its
/// question are right. `is_denied`: the gateway does not take it, for this reason (380), of what it
/// names (379; empty: nothing), in this text (58) of 1 to 200 bytes. False where nothing was done: a
/// text is none, memory is refused, or `out` is too short.
#[unsafe(no_mangle)]
pub extern "C" fn fix_sessions_came(
    alloc: Global,
    session: &mut SessionState,
    firm: &[u8],
    venue: &[u8],
    desk: &[u8],
    date: &[u8],
    moment: u32,
    connection: u64,
    bytes: &[u8],
    is_known: bool,
    is_denied: bool,
    reason: u64,
    id: &[u8],
    text: &[u8],
    out: &mut [u8],
    report: &mut Told,
) -> bool
    ensures done { result ≡ true → (denial : Option Denial)
        × IsDenial is_denied reason id.now text.now denial
        × (names : Names) × AreNamed firm.now venue.now desk.now names
        × (clock : Clock) × IsClock date.now moment clock
        × IsTold names date.now moment
        (steps.came names (read session.old) connection clock bytes.now is_known denial)
        session.new out.new report.new }
    ensures not_done { result ≡ false → session.new ≡ session.old }
{
    let Some(setting) = Setting::new(firm, venue, desk, date, moment) else {
        return false;
    };
    let Some(denial) = denial_of(is_denied, reason, id, text) else {
        return false;
    };
    let before = read(session);
    let turn = came(
        &setting.names,
        &before,
        connection,
        &setting.clock(),
        bytes,
        is_known,
        denial,
    );
    tell(alloc, &setting, &turn, session, out, report)
}

/// The venue gives a message: its frame, of which MsgType (35) and what stands behind the session's
/// header count. False as above, and where it is no frame, or leaves no room for the header.
#[unsafe(no_mangle)]
pub extern "C" fn fix_sessions_given(
    alloc: Global,
    session: &mut SessionState,
    firm: &[u8],
    venue: &[u8],
    desk: &[u8],
    date: &[u8],
    moment: u32,
    frame: &[u8],
    out: &mut [u8],
    report: &mut Told,
) -> bool
    ensures done { result ≡ true → (body : List Field) × (frame_of frame.now ≡ Some body)
        × (names : Names) × AreNamed firm.now venue.now desk.now names
        × IsTold names date.now moment
        (steps.given (read session.old) moment body) session.new out.new report.new }
    ensures not_done { result ≡ false → session.new ≡ session.old }
{
    let Some(setting) = Setting::new(firm, venue, desk, date, moment) else {
        return false;
    };
    let Ok(frame) = read_frame(frame) else {
        return false;
    };
    let Some(body) = Body::new(frame) else {
        return false;
    };
    let before = read(session);
    let turn = given(&before, &setting.clock(), body);
    tell(alloc, &setting, &turn, session, out, report)
}

/// What is kept under the number that the session asks for, first sent at a moment; or with no bytes
/// that nothing is. `next_kept`: the next number under which something is kept. False as above.
#[unsafe(no_mangle)]
pub extern "C" fn fix_sessions_hands(
    alloc: Global,
    session: &mut SessionState,
    firm: &[u8],
    venue: &[u8],
    desk: &[u8],
    date: &[u8],
    moment: u32,
    next_kept: u64,
    frame: &[u8],
    first: u32,
    is_copy: bool,
    out: &mut [u8],
    report: &mut Told,
) -> bool
    ensures done { result ≡ true → (stored : Option Stored) × IsStored frame.now first is_copy stored
        × (names : Names) × AreNamed firm.now venue.now desk.now names
        × IsTold names date.now moment
        (sending.hands (read session.old) moment next_kept stored) session.new out.new report.new }
    ensures not_done { result ≡ false → session.new ≡ session.old }
{
    let Some(setting) = Setting::new(firm, venue, desk, date, moment) else {
        return false;
    };
    let Some(first) = Moment::new(first) else {
        return false;
    };
    let before = read(session);
    if frame.is_empty() {
        let turn = hands(&before, &setting.clock(), next_kept, None);
        return tell(alloc, &setting, &turn, session, out, report);
    }
    let Ok(frame) = read_frame(frame) else {
        return false;
    };
    let Some(body) = Body::new(frame) else {
        return false;
    };
    let stored = Stored {
        body,
        first,
        is_copy,
    };
    let turn = hands(&before, &setting.clock(), next_kept, Some(stored));
    tell(alloc, &setting, &turn, session, out, report)
}

/// Time passes. False as above.
#[unsafe(no_mangle)]
pub extern "C" fn fix_sessions_tick(
    alloc: Global,
    session: &mut SessionState,
    firm: &[u8],
    venue: &[u8],
    desk: &[u8],
    date: &[u8],
    moment: u32,
    out: &mut [u8],
    report: &mut Told,
) -> bool
    ensures done { result ≡ true → (names : Names) × AreNamed firm.now venue.now desk.now names
        × IsTold names date.now moment
        (steps.tick (read session.old) moment) session.new out.new report.new }
    ensures not_done { result ≡ false → session.new ≡ session.old }
{
    let Some(setting) = Setting::new(firm, venue, desk, date, moment) else {
        return false;
    };
    let before = read(session);
    let turn = tick(&before, &setting.clock());
    tell(alloc, &setting, &turn, session, out, report)
}

/// An operator orders something: 0 open, 1 close, 2 suspend, 3 resume, 4 release, 5 reset, with so
/// many copies. False as above, and at another number.
#[unsafe(no_mangle)]
pub extern "C" fn fix_sessions_ordered(
    alloc: Global,
    session: &mut SessionState,
    firm: &[u8],
    venue: &[u8],
    desk: &[u8],
    date: &[u8],
    moment: u32,
    kind: u32,
    copies: u64,
    out: &mut [u8],
    report: &mut Told,
) -> bool
    ensures done { result ≡ true → (order : Order) × (order_of kind copies ≡ Some order)
        × (names : Names) × AreNamed firm.now venue.now desk.now names
        × (clock : Clock) × IsClock date.now moment clock
        × IsTold names date.now moment
        (steps.ordered (read session.old) clock order) session.new out.new report.new }
    ensures not_done { result ≡ false → session.new ≡ session.old }
{
    let Some(setting) = Setting::new(firm, venue, desk, date, moment) else {
        return false;
    };
    let Some(order) = order(kind, copies) else {
        return false;
    };
    let before = read(session);
    let turn = ordered(&before, &setting.clock(), order);
    tell(alloc, &setting, &turn, session, out, report)
}

/// An order by its number.
fn order(kind: u32, copies: u64) -> Option<Order>
    ensures { result ≡ order_of kind copies }
{
    match kind {
        0 => Some(Order::Open),
        1 => Some(Order::Close),
        2 => Some(Order::Suspend),
        3 => Some(Order::Resume),
        4 => Some(Order::Release),
        5 => Some(Order::Reset { copies }),
        _ => None,
    }
}

/// The gateway logs out the firm, if it is logged on, with a text (58) of 1 to 200 bytes. False as
/// above.
#[unsafe(no_mangle)]
pub extern "C" fn fix_sessions_log_out(
    alloc: Global,
    session: &mut SessionState,
    firm: &[u8],
    venue: &[u8],
    desk: &[u8],
    date: &[u8],
    moment: u32,
    text: &[u8],
    out: &mut [u8],
    report: &mut Told,
) -> bool
    ensures done { result ≡ true → (names : Names) × AreNamed firm.now venue.now desk.now names
        × IsTold names date.now moment
        (steps.log_out (read session.old) moment text.now) session.new out.new report.new }
    ensures not_done { result ≡ false → session.new ≡ session.old }
{
    let Some(setting) = Setting::new(firm, venue, desk, date, moment) else {
        return false;
    };
    let Some(text) = said_text(text) else {
        return false;
    };
    let before = read(session);
    let turn = log_out(&before, &setting.clock(), text);
    tell(alloc, &setting, &turn, session, out, report)
}

/// A connection is gone.
#[unsafe(no_mangle)]
pub extern "C" fn fix_sessions_gone(session: &mut SessionState, connection: u64)
    ensures { session.new ≡ shown (steps.gone (read session.old) connection).session }
{
    let before = read(session);
    let turn = gone(&before, connection);
    *session = shown(&turn.session);
}
