// Orders of the tracker, each with what is asked for: all that may want memory is done before the engine is called.
ghost use Rattle.std.specs.Prelude.{◌≡◌, IfOk};
ghost use Rattle.request_tracker.specs.Moves.{IsOrderIn};
ghost use Rattle.engine_views.specs.inside.Orders.{asked_by};

use crate::holds::EngineViews;
use cache_key::LoadSpec;
use faults::NoMemory;
use request_tracker::Order;
use std::alloc::Global;

// An order, and what the load asks for that is to begin by it.
#[derive(Drop)]
pub(crate) struct Turned {
    pub order: Order,
    pub spec: Option<LoadSpec>,
}

impl EngineViews {
    // The order with what its view asks for.
    pub(crate) fn turned(&self, alloc: Global, order: Order) -> Result<Turned, NoMemory>
        requires { IsOrderIn self.now.tracked order }
        ensures order { IfOk result (λ turned. turned.order ≡ order) }
        ensures spec { IfOk result (λ turned. turned.spec ≡ asked_by order self.now.tracked) }
    {
        let mut spec = None;
        if order.begin {
            spec = Some(self.tracker.spec(alloc, order.place)?);
        }
        Ok(Turned { order, spec })
    }
}
