// The six flags of an interrupt, and what each operation makes of them. An operation that depends on the trigger is told whether
// the interrupt is level-sensitive.
ghost use Rattle.std.specs.Prelude.{◌≡◌};
ghost use Rattle.life.specs.Life.{born, enabled_to, pending_to, active_to, state_to, has_delivery, cleared, taken, synchronized, cancelled, deactivated, level_to, pulsed, completed, deliverable};

#[derive(Clone, Copy, Debug, PartialEq, Eq)]
pub struct Life {
    pub enabled: bool,
    pub pending: bool,
    pub active: bool,
    // A core has the interrupt in a list register.
    pub inflight: bool,
    // It came again while in flight, and is to be delivered once more.
    pub redelivery_pending: bool,
    // The line is high.
    pub line_asserted: bool,
}

impl Life {
    pub fn new(enabled: bool) -> Self
        ensures { result ≡ born enabled }
    {
        Life {
            enabled,
            pending: false,
            active: false,
            inflight: false,
            redelivery_pending: false,
            line_asserted: false,
        }
    }

    pub fn set_enabled(mut self, enabled: bool) -> Self
        ensures { result ≡ enabled_to enabled self }
    {
        self.enabled = enabled;
        self.pending = self.pending | enabled & self.line_asserted;
        self
    }

    pub fn set_pending(mut self, pending: bool) -> Self
        ensures { result ≡ pending_to pending self }
    {
        self.pending = pending;
        self.redelivery_pending = pending & self.redelivery_pending;
        self
    }

    pub fn set_active(mut self, active: bool) -> Self
        ensures { result ≡ active_to active self }
    {
        self.active = active;
        self
    }

    pub fn set_state(mut self, pending: bool, active: bool) -> Self
        ensures { result ≡ state_to pending active self }
    {
        self.pending = pending;
        self.active = active;
        self
    }

    pub fn has_delivery_state(self) -> bool
        ensures { result ≡ has_delivery self }
    {
        self.pending | self.active | self.inflight | self.redelivery_pending
    }

    pub fn clear_delivery_state(mut self) -> Self
        ensures { result ≡ cleared self }
    {
        self.pending = false;
        self.active = false;
        self.inflight = false;
        self.redelivery_pending = false;
        self.line_asserted = false;
        self
    }

    pub fn mark_inflight(mut self) -> Self
        ensures { result ≡ taken self }
    {
        self.inflight = true;
        self
    }

    // What the list register says is merged with what came meanwhile.
    pub fn synchronize_inflight(mut self, pending: bool, active: bool) -> Self
        ensures { result ≡ synchronized pending active self }
    {
        self.pending = pending | self.redelivery_pending;
        self.active = active;
        // The list register holds the second delivery now. A mark kept here would deliver it twice.
        self.redelivery_pending = self.redelivery_pending & !(self.pending & self.active);
        self
    }

    pub fn cancel_inflight(mut self) -> Self
        ensures { result ≡ cancelled self }
    {
        self.pending = self.pending | self.redelivery_pending;
        self.inflight = false;
        self.redelivery_pending = false;
        self
    }

    // A level line that is high asks for delivery for as long as it stays high.
    pub fn deactivate_inflight(mut self, level_sensitive: bool, pending_in_delivery: bool) -> Self
        ensures { result ≡ deactivated level_sensitive pending_in_delivery self }
    {
        self.pending = pending_in_delivery
            | self.redelivery_pending
            | level_sensitive & self.line_asserted;
        self.inflight = false;
        self.active = false;
        self.redelivery_pending = false;
        self
    }

    pub fn set_level(mut self, level_sensitive: bool, asserted: bool) -> Self
        ensures { result ≡ level_to level_sensitive asserted self }
    {
        let rising = asserted & !self.line_asserted;
        let stays = asserted | self.active | !level_sensitive;
        self.pending = asserted | self.pending & stays;
        self.redelivery_pending = self.redelivery_pending & stays
            | self.inflight & self.active & rising;
        self.line_asserted = asserted;
        self
    }

    // The list register may have gone from pending to active unseen, so a pulse in flight is kept as one more delivery.
    pub fn pulse(mut self) -> Self
        ensures { result ≡ pulsed self }
    {
        self.pending = true;
        self.redelivery_pending = self.redelivery_pending | self.inflight;
        self
    }

    pub fn complete(mut self, level_sensitive: bool) -> Self
        ensures { result ≡ completed level_sensitive self }
    {
        self.pending = self.pending | level_sensitive & self.line_asserted;
        self.active = false;
        self
    }

    pub fn deliverable(self) -> bool
        ensures { result ≡ deliverable self }
    {
        self.enabled & self.pending
    }
}
