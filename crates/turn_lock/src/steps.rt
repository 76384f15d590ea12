// What a seat does at the table: it takes a ticket, waits for its turn, serves its event and passes the turn on.
ghost use Rattle.std.specs.Prelude.{◌≡◌, ℕ, ◌<◌, ◌≤◌, ◌+◌, ◌%◌, ◌++◌, [], ◌∷◌, true, false, length};
ghost use Rattle.state_machine.specs.Histories.{entry, own};
ghost use Rattle.state_machine.specs.Legal.{MayFollow};
ghost use Rattle.turn_lock.specs.Turns.{CanHave};
ghost use Rattle.turn_lock.specs.inside.Views.{IsIdle, with_known, with_ticket, without_ticket, word_of};
ghost use Rattle.turn_lock.specs.inside.Steps.{HasTurn, Serves};

use crate::rule::{LearnLength, LookAtNext, LookForTurn, PassTurn, Rule, TakeTicket};
use crate::seat::Token;
use crate::view::{About, View};
use atomic_table::Shared;
use state_machine::{Machine, legal_histories_grow, own_entries_append};
use std::sync::Wait;
use std::thread::yield_now;
use std::time::Duration;

pub(crate) type Board<M, N> = Shared<Option<M>, View<M, N>, About<M>, Rule<M>>;

/// Words go round here.
pub(crate) const LAP: u64 = 1 << 62;

/// How often a caller that finds the turn taken lets others go first, before it takes a ticket.
const PATIENCE: u32 = 100;

/// How often a caller looks for a longer history before it sleeps between looks.
const LOOKS: u32 = 100;

/// How long it sleeps between two looks, unless word 1 changed.
const NAP_NANOSECONDS: u32 = 100_000;

pub(crate) fn following(word: u64) -> u64
    requires { word < 4611686018427387904 }
    ensures { result ≡ (word + 1) % 4611686018427387904 }
{
    (word + 1) % LAP
}

/// Takes a ticket, and answers what word 0 was.
pub(crate) fn take_ticket<M: Machine, R: Wait>(
    rt: &R,
    board: &Board<M, M::Note>,
    token: &mut Token<M, M::Note>,
) -> u64
    requires table { (token.old.table_id ≡ board.now.table_id) × (board.now.table_id.words ≡ 2) }
    requires idle { IsIdle token.old.me.0 × (token.old.me.1 ≡ []) }
    ensures table { (token.new.table_id ≡ token.old.table_id) × (token.new.id ≡ token.old.id) }
    ensures small { result < 4611686018427387904 }
    ensures ticket { (t : ℕ) × (result ≡ word_of token.old.me.0.first_ticket t) × (token.new.me ≡ (with_ticket token.old.me.0 t, [])) }
{
    let mut patience = PATIENCE;
    for _ in rt.forever() {
        let next = board.load::<LookAtNext>(token, 0);
        if patience > 0 && board.peek(1) != next {
            patience -= 1;
            yield_now();
            continue;
        }
        let found = board.compare_exchange::<TakeTicket>(token, 0, next, following(next));
        if found == next {
            return found;
        }
    }
    unreachable!()
}

/// Waits until word 1 is the seat's ticket. Then the seat has the machine.
pub(crate) fn wait_for_turn<M: Machine, R: Wait>(
    rt: &R,
    board: &Board<M, M::Note>,
    token: &mut Token<M, M::Note>,
    ticket: u64,
)
    requires table { (token.old.table_id ≡ board.now.table_id) × (board.now.table_id.words ≡ 2) × (board.now.table_id.slots ≡ 1) }
    requires waits { (token.old.me.0.waits ≡ true) × (token.old.me.0.served ≡ false) × (token.old.me.1 ≡ []) }
    requires ticket { ticket ≡ word_of token.old.me.0.first_ticket token.old.me.0.ticket }
    ensures table { (token.new.table_id ≡ token.old.table_id) × (token.new.id ≡ token.old.id) }
    ensures turn { HasTurn M.Machine token.old.me.0 token.new.me }
{
    for _ in rt.forever() {
        if board.load::<LookForTurn<M>>(token, 1) == ticket {
            return;
        }
        yield_now();
    }
    unreachable!()
}

/// Lets the machine take the event, and passes the turn on.
pub(crate) fn serve<M: Machine>(
    board: &Board<M, M::Note>,
    token: &mut Token<M, M::Note>,
    who: u32,
    event: M::Event,
    ticket: u64,
) -> M::Reply
    requires table { (token.old.table_id ≡ board.now.table_id) × (board.now.table_id.words ≡ 2) × (board.now.table_id.slots ≡ 1) }
    requires ticket { (ticket ≡ word_of token.old.me.0.first_ticket token.old.me.0.ticket) × (ticket < 4611686018427387904) }
    requires serves { Serves M.Machine board.now.key.start.value who token.old.me }
    requires asks { M.asks (M.opening board.now.key.start.value) who (own who token.old.me.0.seen) event }
    ensures table { (token.new.table_id ≡ token.old.table_id) × (token.new.id ≡ token.old.id) }
    ensures passed { token.new.me ≡ (without_ticket token.old.me.0 (token.old.me.0.seen ++ entry who (M.note event result) ∷ []), []) }
    ensures legal { CanHave M.Machine (M.opening board.now.key.start.value) (token.old.me.0.seen ++ entry who (M.note event result) ∷ []) }
{
    legal_histories_grow::<M>();
    own_entries_append::<M::Note>();
    let mut machine = board.exchange(token, 0, None).unwrap();
    let reply = machine.step(who, event);
    let nothing = board.exchange(token, 0, Some(machine));
    let None = nothing else { unreachable!() };
    board.store::<PassTurn<M>>(token, 1, following(ticket));
    reply
}

/// Waits until the history is longer than what the seat has seen.
pub(crate) fn wait_for_more<M: Machine, R: Wait>(
    rt: &R,
    board: &Board<M, M::Note>,
    token: &mut Token<M, M::Note>,
    reached: u64,
)
    requires table { (token.old.table_id ≡ board.now.table_id) × (board.now.table_id.words ≡ 2) }
    requires idle { IsIdle token.old.me.0 × (token.old.me.1 ≡ []) }
    requires reached { reached ≡ word_of token.old.me.0.first_ticket (length token.old.me.0.seen) }
    requires known { length token.old.me.0.seen ≤ token.old.me.0.known }
    ensures table { (token.new.table_id ≡ token.old.table_id) × (token.new.id ≡ token.old.id) }
    ensures knows { (k : ℕ) × (length token.old.me.0.seen < k) × (token.new.me ≡ (with_known token.old.me.0 k, [])) }
{
    let mut looks = LOOKS;
    for _ in rt.forever() {
        if board.load::<LearnLength>(token, 1) != reached {
            return;
        }
        if looks > 0 {
            looks -= 1;
            yield_now();
        } else {
            board.park_timeout(
                rt,
                1,
                (reached % (1 << 32)) as u32,
                Duration::new(0, NAP_NANOSECONDS),
            );
        }
    }
    unreachable!()
}
