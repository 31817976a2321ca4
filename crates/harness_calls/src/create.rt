// Creation, by number.
ghost use Rattle.std.specs.Prelude.{◌≡◌};
ghost use Rattle.place.specs.Table.{create_answer, created_count};
ghost use Rattle.model.specs.Calls.{created};
ghost use Rattle.distributor.specs.Model.{model_of};
ghost use Rattle.harness_numbers.specs.Numbers.{low_word, settings_by, valued};

use crate::run::Ran;
use controller::controller::{ControllerConfig, GicV3SpiOwnership};
use distributor::distributor::DistributorState;
use harness_numbers::call::Call;
use harness_numbers::number::{low_word, odd};

// Before any creation there is a Distributor with no SPIs, as after one that is refused.
pub fn nothing() -> DistributorState
    ensures { model_of result ≡ created (settings_by 0 0 0) 0 }
{
    DistributorState::new(config(0, 0, 0), 0).state
}

pub fn create(call: Call) -> Ran
    ensures { (model_of result.state ≡ created (settings_by call.b call.c call.d) (created_count (low_word call.a))) × (result.answer ≡ valued (create_answer (low_word call.a))) }
{
    Ran::seen(DistributorState::new(config(call.b, call.c, call.d), low_word(call.a)))
}

// Ownership, then the LPI, ITS, level-3 and range flags, from the settings' lowest bit up. (An image's header and C's
// call keep them at other bits.)
fn config(settings: u64, distributor_size: u64, lpi_limit: u64) -> ControllerConfig
    ensures { result ≡ settings_by settings distributor_size lpi_limit }
{
    ControllerConfig {
        spi_ownership: GicV3SpiOwnership::of(odd(settings)),
        distributor_size,
        exposes_guest_lpis: odd(settings / 2),
        its: odd(settings / 4),
        lpi_limit: low_word(lpi_limit),
        affinity_level_3: odd(settings / 8),
        range_selector: odd(settings / 16),
    }
}
