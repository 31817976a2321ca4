// What the host's questions about one SPI are answered, in numbers.
ghost use Rattle.std.specs.Prelude.{◌≡◌};
ghost use Rattle.harness_numbers.specs.Values.{route_number, value_number, seen_question};

use crate::answer::Answer;
use attributes::attributes::GicAffinity;
use identifiers::error::Refusal;
use spi::question::Value;

pub fn seen(answer: Result<Value, Refusal>) -> Answer
    ensures { result ≡ seen_question answer }
{
    Answer::seen(answer.map(number_of))
}

fn number_of(value: Value) -> u64
    ensures { result ≡ value_number value }
{
    match value {
        Value::Intid(intid) => intid as u64,
        Value::Flag(on) => on as u64,
        Value::State(state) => state.number(),
        Value::Priority(priority) => priority.raw() as u64,
        Value::Trigger(trigger) => !trigger.is_level() as u64,
        Value::Route(route) => route_number(route),
        Value::Mask(cores) => cores as u64,
    }
}

// 2^40 and the packed affinity, so that the route 0.0.0.0 is not an absent one.
fn route_number(route: Option<GicAffinity>) -> u64
    ensures { result ≡ route_number route }
{
    route.map_or(0, |affinity| 0x100_0000_0000 + affinity.mpidr())
}
