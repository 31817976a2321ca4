// What a change of the host answers.
ghost use Rattle.std.specs.Prelude.{◌≡◌};
ghost use Rattle.spi.specs.ChangeAnswers.{claim_answer, change_answer, told_change};

use attributes::attributes::InterruptState;
use changes::change::Change;
use identifiers::error::Refusal;
use slot::slot::Slot;

fn claim_answer(claimed: bool) -> Result<Option<InterruptState>, Refusal>
    ensures { told_change result ≡ claim_answer claimed }
{
    if claimed {
        return Err(Refusal::ResourceConflict);
    }
    Ok(None)
}

// What a change of this slot answers. A synchronisation gives back the merged state, and any other change nothing.
pub fn change_answer(slot: Slot, change: Change) -> Result<Option<InterruptState>, Refusal>
    ensures { told_change result ≡ change_answer change slot }
{
    match change {
        Change::Claim | Change::ClaimTo(_) => claim_answer(slot.ownership().explicitly_owned),
        Change::SynchronizeInflight(state) => {
            Ok(Some(slot.interrupt().synchronize_inflight(state).state))
        }
        Change::Release | Change::SetCpuTargetMask(_) | Change::Operate(_) => Ok(None),
    }
}
