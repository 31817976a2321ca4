// Creation, and the host's calls on the switch.
ghost use Rattle.std.specs.Prelude.{◌≡◌, ◌+◌};
ghost use Rattle.theory.specs.Lists.{tabulate};
ghost use Rattle.place.specs.Table.{capacity, create_answer, created_count, told_create};
ghost use Rattle.slot.specs.Slots.{fresh_spi};
ghost use Rattle.model.specs.Calls.{created, is_switched_on, rollback, reply, step};
ghost use Rattle.distributor.specs.Model.{model_of, switch_reply};

use crate::distributor::{After, DistributorState};
use controller::controller::ControllerConfig;
use identifiers::types::SpiId;
use place::place::{SPIS, create_answer, created_count};
use slot::slot::Slot;
use std::array;

// A fresh SPI in every place.
fn fresh_slots() -> [Slot; SPIS]
    ensures { result ≡ tabulate (λ p. fresh_spi (32 + p)) 0 capacity }
{
    array::from_fn(|p| Slot::fresh(SpiId::nth(p as u32)))
}

impl DistributorState {
    fn made(config: ControllerConfig, spi_count: u32) -> Self
        ensures { model_of result ≡ created config spi_count }
    {
        DistributorState {
            config,
            enabled: false,
            spi_count,
            slots: fresh_slots(),
        }
    }

    // A Distributor of so many SPIs. More than a table has room for are refused, carrying 1020, the first INTID past the SPIs; the state
    // then has no SPIs.
    pub fn new(config: ControllerConfig, spi_count: u32) -> After<()>
        ensures state { model_of result.state ≡ created config (created_count spi_count) }
        ensures answer { told_create result.answer ≡ create_answer spi_count }
    {
        After {
            state: DistributorState::made(config, created_count(spi_count)),
            answer: create_answer(spi_count),
        }
    }

    // Whether the master switch is on: CTLR bit 1.
    #[tactic(auto, unfolding(model::specs::Calls::reply))]
    pub fn is_switched_on(self) -> bool
        ensures { switch_reply result ≡ reply is_switched_on (model_of self) }
    {
        self.enabled
    }

    // The host puts the switch back.
    pub fn set_enabled_for_rollback(mut self, enabled: bool) -> Self
        ensures { model_of result ≡ step (rollback enabled) (model_of self) }
    {
        self.enabled = enabled;
        self
    }
}
