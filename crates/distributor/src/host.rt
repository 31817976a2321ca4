// The host's calls on one SPI: a change that is named, and a question that is named. Each finds the SPI's place first.
ghost use Rattle.std.specs.Prelude.{◌≡◌};
ghost use Rattle.spi.specs.Questions.{question_answer, told_question};
ghost use Rattle.model.specs.Calls.{change, ask, plain, reply};
ghost use Rattle.distributor.specs.Model.{model_of};
ghost use Rattle.distributor.specs.Host.{slot_answer, ResultOf};

use crate::distributor::{After, DistributorState};
use attributes::attributes::InterruptState;
use changes::change::Change;
use identifiers::error::Refusal;
use identifiers::types::SpiId;
use place::place::Place;
use slot::slot::Slot;
use spi::change::change_answer;
use spi::question::{Question, Value, value_of};

// The Distributor after a change of one SPI. A synchronisation gives back the merged state, and any other change nothing.
pub type Changed = After<Option<InterruptState>>;

impl DistributorState {
    // A change of one SPI. Refusal 1 first, and then what the change itself refuses.
    pub fn change(mut self, spi: SpiId, what: Change) -> Changed
        ensures { ResultOf (change what spi.0) self result }
    {
        match Place::new(self.spi_count, spi.raw()) {
            Ok(place) => {
                let p = place.index();
                let old = self.slots[p];
                self.slots[p] = old.changed(what);
                After {
                    state: self,
                    answer: change_answer(old, what),
                }
            }
            Err(refusal) => After {
                state: self,
                answer: Err(refusal),
            },
        }
    }

    // The slot of an SPI, or refusal 1.
    pub fn slot(self, spi: SpiId) -> Result<Slot, Refusal>
        ensures { result ≡ slot_answer (model_of self) spi.0 }
    {
        let place = Place::new(self.spi_count, spi.raw())?;
        Ok(self.slots[place.index()])
    }

    // A question about one SPI.
    pub fn ask(self, spi: SpiId, question: Question) -> Result<Value, Refusal>
        ensures whole { result ≡ question_answer question (slot_answer (model_of self) spi.0) }
        ensures told { plain (told_question result) ≡ reply (ask question spi.0) (model_of self) }
    {
        Ok(value_of(self.slot(spi)?, question))
    }
}
