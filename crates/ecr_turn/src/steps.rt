// The steps of a pass, on the table below a turnstile.
ghost use Rattle.std.specs.Prelude.{◌≡◌, ◌≤◌, ◌+◌, ◌≢◌, ◌⊎◌, max, [], ◌∷◌, IfOk, IfErr, IfSome, IfNone, Some};
ghost use Rattle.ecr_turn.specs.declared.board.Stage.TheVariants.{Idle, Waits};
ghost use Rattle.ecr_model.specs.registry.Growth.{Each, Grows, Follows};
ghost use Rattle.ecr_turn.specs.Journals.{IsBeginning, longer_of};
ghost use Rattle.ecr_turn.specs.Steps.{waiting, naming};
ghost use Rattle.ecr_turn.specs.Seats.{Lone, IsOf, IsAtRest, IsSameSeat, IsBack, Finds, TakesState, Sees, IsSettled, known_of};

use crate::bell::Bell;
use crate::board::{Board, Place};
use crate::journal::Journal;
use crate::plays::{Draw, Fork, Glue, Learn, Look, Name, PassOn, Record, TakeIn};
use ecr_model::Mem;
use std::alloc::{AllocFailed, Global};
use std::hint::spin_loop;
use std::sync::Wait;
use std::thread::yield_now;

// How often a thread looks whether it is its turn before it lets others run.
const SPINS: u32 = 64;

// How often a caller looks whether the turn is free before it sleeps.
const LOOKS: u32 = 256;

// The state in a list of its own.
pub(crate) fn one_slot<S>(alloc: Global, state: S) -> Result<Vec<Option<Box<S, Global>>>, (S, Mem)>
    ensures ok { IfOk result (λ v. Lone (λ b. b.value ≡ state) v.items) }
    ensures err { IfErr result (λ e. e.0 ≡ state) }
{
    let mut slots: Vec<Option<Box<S, Global>>> = Vec::new(alloc);
    match Box::new(alloc, state) {
        Ok(state) => match slots.push(Some(state)) {
            Ok(()) => Ok(slots),
            Err(failed) => {
                let AllocFailed { value } = failed;
                slots.destroy_empty();
                Err((Box::into_inner(value.unwrap()), Mem))
            }
        },
        Err(failed) => {
            let AllocFailed { value } = failed;
            slots.destroy_empty();
            Err((value, Mem))
        }
    }
}

// The state out of that list.
pub(crate) fn out_of_slot<S>(mut slots: Vec<Option<Box<S, Global>>>) -> S
    requires one { Lone (λ b. Unit {0}) slots.items }
    ensures state { Lone (λ b. b.value ≡ result) slots.items }
{
    let state = slots.pop().unwrap().unwrap();
    slots.destroy_empty();
    Box::into_inner(state)
}

// Draws a ticket, if none is out.
fn draw_now<S: Journal>(board: &Board<S>, seat: &mut Place<S>) -> Option<u64>
    requires of { IsOf board.now.shared.table_id seat.old }
    requires idle { seat.old.me.0.stage ≡ Idle }
    ensures pass { seat.new.table_id ≡ seat.old.table_id }
    ensures waits { IfSome result (λ t. seat.new.me ≡ (waiting t seat.old.me.0, seat.old.me.1)) }
    ensures kept { IfNone result (seat.new.me ≡ seat.old.me) }
{
    let next = board.shared.peek(1);
    if next == u64::MAX || board.shared.peek(2) != next {
        return None;
    }
    let shared = &board.shared;
    let found = shared.compare_exchange::<Draw>(seat, 1, next, next + 1);
    if found != next {
        return None;
    }
    Some(next)
}

// The same, looking for a while.
fn draw_soon<S: Journal>(board: &Board<S>, seat: &mut Place<S>) -> Option<u64>
    requires of { IsOf board.now.shared.table_id seat.old }
    requires idle { seat.old.me.0.stage ≡ Idle }
    ensures pass { seat.new.table_id ≡ seat.old.table_id }
    ensures waits { IfSome result (λ t. seat.new.me ≡ (waiting t seat.old.me.0, seat.old.me.1)) }
    ensures kept { IfNone result (seat.new.me ≡ seat.old.me) }
{
    for _ in 0..LOOKS {
        if let Some(ticket) = draw_now(board, seat) {
            return Some(ticket);
        }
        yield_now();
    }
    None
}

// Sleeps until a turn ends, if one is taken.
fn doze<S: Journal, R: Wait>(board: &Board<S>, bell: &Bell, rt: &R)
    requires { board.now.shared.table_id.words ≡ 4 }
{
    let heard = bell.listen();
    // The look comes after the count, or the bell might not ring for this caller.
    let taken = board.shared.peek(1) != board.shared.peek(2);
    bell.sleep(rt, heard, taken);
}

// Draws a ticket, while none is out. Where callers queued up, each turn would have to go to one of their threads, which
// with more threads than processors mostly isn't running.
pub(crate) fn draw<S: Journal, R: Wait>(
    board: &Board<S>,
    bell: &Bell,
    rt: &R,
    seat: &mut Place<S>,
) -> u64
    requires of { IsOf board.now.shared.table_id seat.old }
    requires idle { seat.old.me.0.stage ≡ Idle }
    ensures pass { seat.new.table_id ≡ seat.old.table_id }
    ensures waits { seat.new.me ≡ (waiting result seat.old.me.0, seat.old.me.1) }
{
    for _ in rt.forever() {
        if let Some(ticket) = draw_soon(board, seat) {
            return ticket;
        }
        doze(board, bell, rt);
    }
    unreachable!()
}

// Some time passes, but for no longer than until the ticket is served.
fn linger<S: Journal>(board: &Board<S>, ticket: u64)
    requires { board.now.shared.table_id.words ≡ 4 }
{
    for _ in 0..SPINS {
        if board.shared.peek(2) == ticket {
            return;
        }
        spin_loop();
    }
    yield_now();
}

// Waits until the ticket is served.
fn wait<S: Journal, R: Wait>(board: &Board<S>, rt: &R, seat: &mut Place<S>, ticket: u64)
    requires of { IsOf board.now.shared.table_id seat.old }
    requires waits { (seat.old.me.0.stage ≡ Waits ticket) × (seat.old.me.1 ≡ []) }
    ensures pass { seat.new.table_id ≡ seat.old.table_id }
    ensures found { Finds (λ b. S.lines b.value) (λ b. S.frame b.value) seat.old seat.new ticket }
{
    for _ in rt.forever() {
        let served = board.shared.load::<Look<S>>(seat, 2);
        if served == ticket {
            return;
        }
        linger(board, ticket);
    }
    unreachable!()
}

// Waits until the ticket is served, takes the state, and looks at its journal.
pub(crate) fn take<S: Journal, R: Wait>(
    board: &Board<S>,
    rt: &R,
    seat: &mut Place<S>,
    ticket: u64,
) -> Box<S, Global>
    requires of { IsOf board.now.shared.table_id seat.old }
    requires waits { (seat.old.me.0.stage ≡ Waits ticket) × (seat.old.me.1 ≡ []) }
    ensures pass { seat.new.table_id ≡ seat.old.table_id }
    ensures taken { TakesState (λ b. S.lines b.value) (λ b. S.frame b.value) seat.old seat.new ticket result }
{
    wait(board, rt, seat, ticket);
    let state = board.shared.exchange(seat, 0, None).unwrap();
    board.shared.load::<Learn>(seat, 0);
    state
}

// Draws the number of a caller to come.
fn name<S: Journal, R: Wait>(board: &Board<S>, rt: &R, seat: &mut Place<S>) -> u64
    requires of { IsOf board.now.shared.table_id seat.old }
    requires idle { seat.old.me.0.stage ≡ Idle }
    ensures pass { (seat.new.table_id ≡ seat.old.table_id)
        × (seat.new.me ≡ (naming result seat.old.me.0, seat.old.me.1)) }
    ensures new { (result ≢ seat.old.me.0.caller) × Each (λ l. l.caller ≢ result) seat.old.me.0.seen }
    ensures unused { seat.old.me.0.callers ≤ result }
{
    for _ in rt.forever() {
        let next = board.shared.peek(3);
        if next < u64::MAX {
            let shared = &board.shared;
            let found = shared.compare_exchange::<Name>(seat, 3, next, next + 1);
            if found == next {
                return next;
            }
        }
        yield_now();
    }
    unreachable!()
}

// A seat for the next caller, who is told what this one knows.
pub(crate) fn fork<S: Journal, R: Wait>(
    board: &Board<S>,
    rt: &R,
    seat: &mut Place<S>,
) -> (u64, Place<S>)
    requires of { IsOf board.now.shared.table_id seat.old }
    requires idle { IsAtRest seat.old }
    ensures kept { (known_of seat.new ≡ record (known_of seat.old) { callers = result.0 + 1 }) × IsAtRest seat.new }
    ensures given { (known_of result.1 ≡ record (known_of seat.old) { caller = result.0; callers = result.0 + 1 })
        × IsAtRest result.1 }
    ensures new { (result.0 ≢ seat.old.me.0.caller) × Each (λ l. l.caller ≢ result.0) seat.old.me.0.seen }
    ensures unused { seat.old.me.0.callers ≤ result.0 }
{
    let caller = name(board, rt, seat);
    let other = board.shared.split_seat::<Fork>(seat);
    (caller, other)
}

// Takes another seat in, with what it has seen.
pub(crate) fn absorb<S: Journal>(board: &Board<S>, seat: &mut Place<S>, other: Place<S>)
    requires one { IsOf board.now.shared.table_id seat.old × IsAtRest seat.old }
    requires two { IsOf board.now.shared.table_id other × IsAtRest other }
    ensures pass { IsSameSeat seat.old seat.new × IsAtRest seat.new }
    ensures callers { seat.new.me.0.callers ≡ max seat.old.me.0.callers other.me.0.callers }
    ensures past { seat.new.me.0.past ≡ max seat.old.me.0.past other.me.0.past }
    ensures seen { seat.new.me.0.seen ≡ longer_of seat.old.me.0.seen other.me.0.seen }
    ensures ordered { IsBeginning seat.old.me.0.seen other.me.0.seen ⊎ IsBeginning other.me.0.seen seat.old.me.0.seen }
    ensures grows { Grows seat.old.me.0.caller seat.old.me.0.past seat.old.me.0.seen seat.new.me.0.seen }
    ensures follows { Follows other.me.0.past other.me.0.seen seat.new.me.0.seen }
{
    board.shared.join_seat::<Glue>(seat, other);
    board.shared.load::<TakeIn>(seat, 0);
}

// The state is back in its slot: enters the entry that its journal grew by.
fn settle<S: Journal>(board: &Board<S>, seat: &mut Place<S>, ticket: u64, grown: bool)
    requires of { IsOf board.now.shared.table_id seat.old }
    requires back { IsBack (λ b. S.lines b.value) (λ b. S.frame b.value) seat.old ticket grown }
    ensures { IsSettled (λ b. S.lines b.value) (λ b. S.frame b.value) seat.old seat.new ticket }
{
    if !grown {
        return;
    }
    board.shared.fetch_add::<Record<S>>(seat, 0, 1);
}

// Gives the turn away. The bell rings only then, so that a caller which it wakes finds the turn free.
pub(crate) fn pass_on<S: Journal>(
    board: &Board<S>,
    bell: &Bell,
    seat: &mut Place<S>,
    ticket: u64,
    grown: bool,
)
    requires of { IsOf board.now.shared.table_id seat.old }
    requires back { IsBack (λ b. S.lines b.value) (λ b. S.frame b.value) seat.old ticket grown }
    ensures pass { IsSameSeat seat.old seat.new × IsAtRest seat.new × (seat.new.me.0.past ≡ ticket + 1) }
    ensures seen { Sees (λ b. S.lines b.value) seat.old.me.1 seat.new.me.0.seen }
{
    settle(board, seat, ticket, grown);
    board.shared.fetch_add::<PassOn>(seat, 2, 1);
    bell.ring();
}
