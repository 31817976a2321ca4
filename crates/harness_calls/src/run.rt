// A call, run on a Distributor.
ghost use Rattle.std.specs.Prelude.{◌≡◌, min, length};
ghost use Rattle.identifiers.specs.Answer.{told};
ghost use Rattle.model.specs.Calls.{read, write, change, ask, step, reply};
ghost use Rattle.distributor.specs.Model.{model_of};
ghost use Rattle.harness_numbers.specs.Numbers.{width_by, call_of, valued, asked};
ghost use Rattle.harness_calls.specs.Ran.{Performed, RanAs};

use crate::create;
use answers::answer::Values;
use changes::change::Change;
use distributor::distributor::{After, DistributorState};
use harness_numbers::answer::Answer;
use harness_numbers::call::{Call, Family};
use harness_numbers::number::{low_word, odd};
use harness_numbers::{call, guest, identifier, question};
use identifiers::types::SpiId;
use spi::question::Question;

// The Distributor after a call, and what is seen of what the call answered.
#[derive(Clone, Copy, Debug, PartialEq, Eq)]
pub struct Ran {
    pub state: DistributorState,
    pub answer: Answer,
}

impl Ran {
    fn kept(state: DistributorState, answer: Answer) -> Self
        ensures { result ≡ record { state = state; answer = answer } }
    {
        Ran { state, answer }
    }

    // After a creation or a change of the host.
    pub(crate) fn seen<T: Values>(after: After<T>) -> Self
        ensures { (result.state ≡ after.state) × (result.answer ≡ valued (told T.values after.answer)) }
    {
        Ran::kept(after.state, Answer::seen(after.answer))
    }
}

// A write is lent the first `call.d` places of `room`, or all of them where it has fewer.
pub fn run(d: DistributorState, call: Call, room: &mut [u32]) -> Ran
    ensures { RanAs (call_of call (length room.old)) d room.old result room.new }
{
    match call::family_of(call.op, call.b) {
        Family::Identifier => Ran::kept(d, identifier::run(call)),
        Family::Creation => create::create(call),
        Family::Read => Ran::kept(d, read(d, call)),
        Family::Write => write(d, call, room),
        Family::Switch => Ran::kept(d, Answer::done(d.is_switched_on() as u64)),
        Family::Rollback => Ran::kept(d.set_enabled_for_rollback(odd(call.a)), Answer::done(0)),
        Family::Change(what) => change_spi(d, low_word(call.a), what),
        Family::Asking(question) => Ran::kept(d, ask_spi(d, low_word(call.a), question)),
        Family::Unknown => Ran::kept(d, Answer::UNKNOWN),
    }
}

fn read(d: DistributorState, call: Call) -> Answer
    ensures { result ≡ valued (reply (read call.a (width_by call.b)) (model_of d)).answer }
{
    Answer::seen(d.read(call.a, guest::width(call.b)))
}

fn write(d: DistributorState, call: Call, room: &mut [u32]) -> Ran
    ensures { Performed (write call.a (width_by call.b) call.c (min call.d (length room.old))) d room.old result room.new }
{
    let places = guest::lent(call.d, room.len());
    let wrote = d.write(call.a, guest::width(call.b), call.c, &mut room[..places]);
    Ran::kept(wrote.state, guest::written(wrote.answer))
}

// A number that is no SPI's is refused before the Distributor is asked, since its calls take an `SpiId`.
fn change_spi(d: DistributorState, raw: u32, what: Change) -> Ran
    ensures { (model_of result.state ≡ step (change what raw) (model_of d)) × (result.answer ≡ valued (reply (change what raw) (model_of d)).answer) }
{
    match SpiId::new(raw) {
        Ok(spi) => Ran::seen(d.change(spi, what)),
        Err(refusal) => Ran::kept(d, Answer::refused(refusal)),
    }
}

fn ask_spi(d: DistributorState, raw: u32, question: Question) -> Answer
    ensures { result ≡ asked question (reply (ask question raw) (model_of d)).answer }
{
    match SpiId::new(raw) {
        Ok(spi) => question::seen(d.ask(spi, question)),
        Err(refusal) => Answer::refused(refusal),
    }
}
