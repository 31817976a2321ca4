// One interrupt's record: what is known of it, and all that can happen to it. Each operation takes the record and hands back
// the new one. What happens to its flags is said in `life`.
ghost use Rattle.std.specs.Prelude.{◌≡◌, false};
ghost use Rattle.attributes.specs.States.{pending_of, active_of};
ghost use Rattle.life.specs.Life.{enabled_to, pending_to, active_to, state_to, has_delivery, cleared, taken, cancelled, deactivated, completed};
ghost use Rattle.interrupt.specs.Records.{fresh, restored, with_life, is_level, state_in, synchronized_with, priority_to, trigger_to, route_in, route_to, unrouted, mask_in, mask_to, line_to, line_pulsed, deliverable_in};

use attributes::attributes::{GicAffinity, InterruptState, Priority, TriggerMode};
use identifiers::types::IntId;
use life::life::Life;

#[derive(Clone, Copy, Debug, PartialEq, Eq)]
pub struct InterruptRecord {
    intid: IntId,
    life: Life,
    priority: Priority,
    trigger: TriggerMode,
    // A route, or a target mask, or neither.
    route: Option<GicAffinity>,
    cpu_target_mask: Option<u8>,
}

// The record after a synchronisation, and the merged state.
#[derive(Clone, Copy, Debug, PartialEq, Eq)]
pub struct Synchronized {
    pub interrupt: InterruptRecord,
    pub state: InterruptState,
}

#[tactic(auto, unfolding(crate::specs::Records::fresh, crate::specs::Records::restored, crate::specs::Records::with_life, crate::specs::Records::state_in, crate::specs::Records::deliverable_in, crate::specs::Records::line_to, crate::specs::Records::line_pulsed, crate::specs::Records::synchronized_with, crate::specs::Records::priority_to, crate::specs::Records::trigger_to, crate::specs::Records::route_to, crate::specs::Records::unrouted, crate::specs::Records::mask_to, crate::specs::Records::route_in, crate::specs::Records::mask_in))]
impl InterruptRecord {
    pub fn new(intid: IntId, trigger: TriggerMode) -> Self
        ensures { result ≡ fresh intid trigger }
    {
        InterruptRecord {
            intid,
            life: Life::new(intid.is_sgi()),
            priority: Priority::DEFAULT,
            trigger,
            route: None,
            cpu_target_mask: None,
        }
    }

    // A record that was kept elsewhere, part by part.
    pub fn restored(
        intid: IntId,
        life: Life,
        priority: Priority,
        trigger: TriggerMode,
        route: Option<GicAffinity>,
        cpu_target_mask: Option<u8>,
    ) -> Self
        ensures { result ≡ restored intid life priority trigger route cpu_target_mask }
    {
        InterruptRecord {
            intid,
            life,
            priority,
            trigger,
            route,
            cpu_target_mask,
        }
    }

    pub fn intid(self) -> IntId
        ensures { result ≡ self.intid }
    {
        self.intid
    }

    pub fn life(self) -> Life
        ensures { result ≡ self.life }
    {
        self.life
    }

    pub fn enabled(self) -> bool
        ensures { result ≡ self.life.enabled }
    {
        self.life.enabled
    }

    pub fn set_enabled(mut self, enabled: bool) -> Self
        ensures { result ≡ with_life (enabled_to enabled self.life) self }
    {
        self.life = self.life.set_enabled(enabled);
        self
    }

    pub fn pending(self) -> bool
        ensures { result ≡ self.life.pending }
    {
        self.life.pending
    }

    pub fn set_pending(mut self, pending: bool) -> Self
        ensures { result ≡ with_life (pending_to pending self.life) self }
    {
        self.life = self.life.set_pending(pending);
        self
    }

    pub fn active(self) -> bool
        ensures { result ≡ self.life.active }
    {
        self.life.active
    }

    pub fn set_active(mut self, active: bool) -> Self
        ensures { result ≡ with_life (active_to active self.life) self }
    {
        self.life = self.life.set_active(active);
        self
    }

    pub fn state(self) -> InterruptState
        ensures { result ≡ state_in self }
    {
        InterruptState::of(self.life.pending, self.life.active)
    }

    pub fn set_state(mut self, state: InterruptState) -> Self
        ensures { result ≡ with_life (state_to (pending_of state) (active_of state) self.life) self }
    {
        self.life = self.life.set_state(state.is_pending(), state.is_active());
        self
    }

    pub fn has_delivery_state(self) -> bool
        ensures { result ≡ has_delivery self.life }
    {
        self.life.has_delivery_state()
    }

    pub fn clear_delivery_state(mut self) -> Self
        ensures { result ≡ with_life (cleared self.life) self }
    {
        self.life = self.life.clear_delivery_state();
        self
    }

    pub fn mark_inflight(mut self) -> Self
        ensures { result ≡ with_life (taken self.life) self }
    {
        self.life = self.life.mark_inflight();
        self
    }

    pub fn synchronize_inflight(mut self, state: InterruptState) -> Synchronized
        ensures { result ≡ record { interrupt = synchronized_with state self; state = state_in (synchronized_with state self) } }
    {
        self.life = self
            .life
            .synchronize_inflight(state.is_pending(), state.is_active());
        Synchronized {
            interrupt: self,
            state: self.state(),
        }
    }

    pub fn cancel_inflight(mut self) -> Self
        ensures { result ≡ with_life (cancelled self.life) self }
    {
        self.life = self.life.cancel_inflight();
        self
    }

    pub fn finish_inflight(mut self) -> Self
        ensures { result ≡ with_life (deactivated (is_level self) false self.life) self }
    {
        self = self.deactivate_inflight(false);
        self
    }

    pub fn deactivate_inflight(mut self, pending_in_delivery: bool) -> Self
        ensures { result ≡ with_life (deactivated (is_level self) pending_in_delivery self.life) self }
    {
        self.life = self
            .life
            .deactivate_inflight(self.trigger.is_level(), pending_in_delivery);
        self
    }

    pub fn priority(self) -> Priority
        ensures { result ≡ self.priority }
    {
        self.priority
    }

    pub fn set_priority(mut self, priority: Priority) -> Self
        ensures { result ≡ priority_to priority self }
    {
        self.priority = priority;
        self
    }

    pub fn trigger(self) -> TriggerMode
        ensures { result ≡ self.trigger }
    {
        self.trigger
    }

    pub fn set_trigger(mut self, trigger: TriggerMode) -> Self
        ensures { result ≡ trigger_to trigger self }
    {
        self.trigger = trigger;
        self
    }

    pub fn route(self) -> Option<GicAffinity>
        ensures { result ≡ route_in self }
    {
        self.route
    }

    pub fn set_route(mut self, route: GicAffinity) -> Self
        ensures { result ≡ route_to route self }
    {
        self.route = Some(route);
        self.cpu_target_mask = None;
        self
    }

    pub fn clear_route(mut self) -> Self
        ensures { result ≡ unrouted self }
    {
        self.route = None;
        self
    }

    pub fn cpu_target_mask(self) -> Option<u8>
        ensures { result ≡ mask_in self }
    {
        self.cpu_target_mask
    }

    pub fn set_cpu_target_mask(mut self, mask: u8) -> Self
        ensures { result ≡ mask_to mask self }
    {
        self.route = None;
        self.cpu_target_mask = Some(mask);
        self
    }

    pub fn set_level(mut self, asserted: bool) -> Self
        ensures { result ≡ line_to asserted self }
    {
        self.life = self.life.set_level(self.trigger.is_level(), asserted);
        self
    }

    pub fn pulse(mut self) -> Self
        ensures { result ≡ line_pulsed self }
    {
        self.life = self.life.pulse();
        self
    }

    pub fn complete(mut self) -> Self
        ensures { result ≡ with_life (completed (is_level self) self.life) self }
    {
        self.life = self.life.complete(self.trigger.is_level());
        self
    }

    pub fn deliverable(self) -> bool
        ensures { result ≡ deliverable_in self }
    {
        self.life.deliverable()
    }
}
