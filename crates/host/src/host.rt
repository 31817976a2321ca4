// The host's public calls on one SPI, each a named change, as the paper asks; `change` is the one that takes any. An
// SPI that the table has not is refused 1.
ghost use Rattle.operation.specs.declared.operation.Operation.TheVariants.{SetEnabled, SetPending, SetActive, SetState, ClearDeliveryState, MarkInflight, CancelInflight, FinishInflight, DeactivateInflight, SetPriority, SetTrigger, SetRoute, ClearRoute, SetLevel, Pulse, Complete};
ghost use Rattle.changes.specs.declared.change.Change.TheVariants.{Claim, ClaimTo, Release, SetCpuTargetMask, SynchronizeInflight, Operate};
ghost use Rattle.model.specs.Calls.{change};
ghost use Rattle.distributor.specs.Host.{ResultOf};

use attributes::attributes::{GicAffinity, InterruptState, Priority, TriggerMode};
use changes::change::Change;
use distributor::distributor::DistributorState;
use distributor::host::Changed;
use identifiers::types::SpiId;
use operation::operation::Operation;

pub fn claim_software_spi(d: DistributorState, spi: SpiId) -> Changed
    ensures { ResultOf (change Claim spi.0) d result }
{
    d.change(spi, Change::Claim)
}

pub fn claim_physical_spi(d: DistributorState, spi: SpiId, route: GicAffinity) -> Changed
    ensures { ResultOf (change (ClaimTo route) spi.0) d result }
{
    d.change(spi, Change::ClaimTo(route))
}

pub fn release_spi_claim(d: DistributorState, spi: SpiId) -> Changed
    ensures { ResultOf (change Release spi.0) d result }
{
    d.change(spi, Change::Release)
}

pub fn set_enabled(d: DistributorState, spi: SpiId, enabled: bool) -> Changed
    ensures { ResultOf (change (Operate (SetEnabled enabled)) spi.0) d result }
{
    d.change(spi, Change::Operate(Operation::SetEnabled(enabled)))
}

pub fn set_pending(d: DistributorState, spi: SpiId, pending: bool) -> Changed
    ensures { ResultOf (change (Operate (SetPending pending)) spi.0) d result }
{
    d.change(spi, Change::Operate(Operation::SetPending(pending)))
}

pub fn set_active(d: DistributorState, spi: SpiId, active: bool) -> Changed
    ensures { ResultOf (change (Operate (SetActive active)) spi.0) d result }
{
    d.change(spi, Change::Operate(Operation::SetActive(active)))
}

pub fn set_state(d: DistributorState, spi: SpiId, state: InterruptState) -> Changed
    ensures { ResultOf (change (Operate (SetState state)) spi.0) d result }
{
    d.change(spi, Change::Operate(Operation::SetState(state)))
}

pub fn clear_delivery_state(d: DistributorState, spi: SpiId) -> Changed
    ensures { ResultOf (change (Operate ClearDeliveryState) spi.0) d result }
{
    d.change(spi, Change::Operate(Operation::ClearDeliveryState))
}

pub fn mark_inflight(d: DistributorState, spi: SpiId) -> Changed
    ensures { ResultOf (change (Operate MarkInflight) spi.0) d result }
{
    d.change(spi, Change::Operate(Operation::MarkInflight))
}

pub fn synchronize_inflight(d: DistributorState, spi: SpiId, state: InterruptState) -> Changed
    ensures { ResultOf (change (SynchronizeInflight state) spi.0) d result }
{
    d.change(spi, Change::SynchronizeInflight(state))
}

pub fn cancel_inflight(d: DistributorState, spi: SpiId) -> Changed
    ensures { ResultOf (change (Operate CancelInflight) spi.0) d result }
{
    d.change(spi, Change::Operate(Operation::CancelInflight))
}

pub fn finish_inflight(d: DistributorState, spi: SpiId) -> Changed
    ensures { ResultOf (change (Operate FinishInflight) spi.0) d result }
{
    d.change(spi, Change::Operate(Operation::FinishInflight))
}

pub fn deactivate_inflight(d: DistributorState, spi: SpiId, pending: bool) -> Changed
    ensures { ResultOf (change (Operate (DeactivateInflight pending)) spi.0) d result }
{
    d.change(spi, Change::Operate(Operation::DeactivateInflight(pending)))
}

pub fn set_priority(d: DistributorState, spi: SpiId, priority: Priority) -> Changed
    ensures { ResultOf (change (Operate (SetPriority priority)) spi.0) d result }
{
    d.change(spi, Change::Operate(Operation::SetPriority(priority)))
}

pub fn set_trigger(d: DistributorState, spi: SpiId, trigger: TriggerMode) -> Changed
    ensures { ResultOf (change (Operate (SetTrigger trigger)) spi.0) d result }
{
    d.change(spi, Change::Operate(Operation::SetTrigger(trigger)))
}

pub fn set_route(d: DistributorState, spi: SpiId, route: GicAffinity) -> Changed
    ensures { ResultOf (change (Operate (SetRoute route)) spi.0) d result }
{
    d.change(spi, Change::Operate(Operation::SetRoute(route)))
}

pub fn clear_route(d: DistributorState, spi: SpiId) -> Changed
    ensures { ResultOf (change (Operate ClearRoute) spi.0) d result }
{
    d.change(spi, Change::Operate(Operation::ClearRoute))
}

pub fn set_cpu_target_mask(d: DistributorState, spi: SpiId, mask: u8) -> Changed
    ensures { ResultOf (change (SetCpuTargetMask mask) spi.0) d result }
{
    d.change(spi, Change::SetCpuTargetMask(mask))
}

pub fn set_level(d: DistributorState, spi: SpiId, asserted: bool) -> Changed
    ensures { ResultOf (change (Operate (SetLevel asserted)) spi.0) d result }
{
    d.change(spi, Change::Operate(Operation::SetLevel(asserted)))
}

pub fn pulse(d: DistributorState, spi: SpiId) -> Changed
    ensures { ResultOf (change (Operate Pulse) spi.0) d result }
{
    d.change(spi, Change::Operate(Operation::Pulse))
}

pub fn complete(d: DistributorState, spi: SpiId) -> Changed
    ensures { ResultOf (change (Operate Complete) spi.0) d result }
{
    d.change(spi, Change::Operate(Operation::Complete))
}
