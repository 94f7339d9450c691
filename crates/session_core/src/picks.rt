//! Which worker takes the next order.
ghost use Rattle.std.specs.Prelude.{◌≡◌, ◌^◌, ◌<◌, is_some, length, max, min};
ghost use Rattle.core_rules.specs.Orders.{picked};
ghost use Rattle.core_rules.specs.Steps.{at_time};
ghost use Rattle.session_core.specs.Orders.{free_worker_of};

use crate::numbering::Numbering;
use crate::session::Session;
use engine_core::engine_law;
use keeper_core::Keeper;
use std::sync::ledger::Ledger;

/// The latest moment that an event can have, in milliseconds since 1970.
const LATEST: u64 = 1 << 60;

impl<K: Keeper, G: Ledger, N: Numbering> Session<K, G, N> {
    /// The moment of an event at the last reading.
    fn moment(&self) -> u64
        ensures { result ≡ max self.now.desk.engine.core.now (min self.now.last (2 ^ 60)) }
    {
        self.desk.engine().now().max(self.last.min(LATEST))
    }

    /// Whether a worker has a pick at the last reading.
    fn has_pick(&self, worker: u32) -> bool
        requires { worker < length self.now.desk.engine.core.program.workers }
        ensures { let core = at_time self.now.desk.engine.core self.now.last in
            result ≡ is_some (picked core worker) }
    {
        let engine = self.desk.engine();
        engine_law(engine);
        let pick = engine.jobs().pools().pick(worker, self.moment());
        pick.is_some()
    }

    /// The first worker in file order that has a pick at the last reading.
    pub(crate) fn free_worker(&self) -> Option<u32>
        ensures { result ≡ free_worker_of self.now.desk.engine.core self.now.last }
    {
        let engine = self.desk.engine();
        engine_law(engine);
        let count = engine.program().workers.as_slice().len() as u32;
        let mut worker = 0;
        while worker < count {
            if self.has_pick(worker) {
                return Some(worker);
            }
            worker += 1;
        }
        None
    }
}
