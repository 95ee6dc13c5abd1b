//! The protocol of the queue: what it holds, and what each pass knows.

use crossbeam_queue::RuledArrayQueue;
use crossbeam_queue::protocol::{Join, Lesson, Outcome, Protocol, Split};
use init_machine::Pair;
use std::collections::LinkedList;

/// A request of a session, as it is in the queue. Sessions are counted from 0.
#[derive(Drop)]
pub(crate) struct Item {
    pub session: u32,
    pub request: Pair,
}

// What a pass knows. A session's: which one it is, and what it has pushed. The worker's: how many sessions have passes, what it has
// popped, and what the sessions have pushed whose passes it has taken in. No value of it is made.
pub(crate) struct View {
    pub sends: bool,
    pub from: u64,
    pub put: LinkedList<Pair>,
    pub gets: bool,
    pub made: u64,
    pub got: LinkedList<Item>,
    pub done: LinkedList<LinkedList<Pair>>,
}

/// The rule: each session's requests leave the queue in the order in which they came.
pub(crate) struct InOrder;

impl Protocol<Item, View> for InOrder {
    ghost use Rattle.std.specs.Prelude.{[]};
    ghost use Rattle.prop_dispatch.specs.internal.Rule.{KeepsOrder};
    ghost use Rattle.prop_dispatch.specs.internal.Views.{worker_view};

    ghost holds = { KeepsOrder };

    ghost first = { worker_view 0 [] [] };
}

/// The worker makes the pass of the next session.
pub(crate) struct Seats;

impl Split<View> for Seats {
    ghost use Rattle.std.specs.Prelude.{◌+◌, []};
    ghost use Rattle.prop_dispatch.specs.internal.Views.{session_view, worker_view};

    ghost left = { λ v. worker_view (v.made + 1) v.got v.done };

    ghost right = { λ v. session_view v.made [] };
}

/// The worker takes in the pass of a session that has ended.
pub(crate) struct Leaves;

impl Join<View> for Leaves {
    ghost use Rattle.std.specs.Prelude.{◌++◌, ◌∷◌, []};
    ghost use Rattle.prop_dispatch.specs.internal.Views.{spent_view, worker_view};

    ghost both = { λ v w. worker_view v.made v.got (v.done ++ w.put ∷ []) };

    ghost spent = { spent_view };
}

/// A session pushes its next request.
pub(crate) struct Puts;

impl Outcome<Item, View> for Puts {
    ghost use Rattle.std.specs.Prelude.{◌≡◌, ◌++◌, ◌∷◌, []};
    ghost use Rattle.prop_dispatch.specs.internal.Views.{session_view};

    ghost then = { λ v x w. w ≡ session_view v.from (v.put ++ x.request ∷ []) };
}

/// The worker pops a request.
pub(crate) struct Takes;

impl Outcome<Item, View> for Takes {
    ghost use Rattle.std.specs.Prelude.{◌≡◌, ◌++◌, ◌∷◌, []};
    ghost use Rattle.prop_dispatch.specs.internal.Views.{worker_view};

    ghost then = { λ v x w. w ≡ worker_view v.made (v.got ++ x ∷ []) v.done };
}

impl Lesson<Item, View> for Takes {
    ghost use Rattle.prop_dispatch.specs.internal.Rule.{Accounts};

    ghost fact = { Accounts };
}

pub(crate) type Line = RuledArrayQueue<Item, View, InOrder>;
