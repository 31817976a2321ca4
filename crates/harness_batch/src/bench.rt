// Reads and writes on one Distributor, timed from outside (docs/SPEED.md).
use crate::sequence::{CALL, call_of};
use distributor::distributor::DistributorState;
use harness_calls::create;
use harness_numbers::answer::Answer;
use harness_numbers::guest;
use harness_numbers::guest::PLACES;

// The first call is a creation, and each of the others a read or a write, which is lent all places. Answers a sum of all that they
// answered, so that none can be left out.
#[unsafe(no_mangle)]
pub extern "C" fn batch_bench(calls: &[u8]) -> u64 {
    let (calls, _) = calls.as_chunks();
    let Some((creation, accesses)) = calls.split_first() else {
        return 0;
    };
    let created = create::create(call_of(creation));
    sum_of(created.state, accesses, &mut [0; PLACES])
}

fn sum_of(mut d: DistributorState, accesses: &[[u8; CALL]], list: &mut [u32; PLACES]) -> u64 {
    let mut sum = 0;
    for bytes in accesses {
        let call = call_of(bytes);
        let width = guest::width(call.b);
        if call.op == 0x11 {
            sum = add(sum, Answer::seen(d.read(call.a, width)));
        } else {
            let wrote = d.write(call.a, width, call.c, list);
            d = wrote.state;
            sum = add_list(sum, guest::written(wrote.answer), list);
        }
    }
    sum
}

// Turned by a bit, so that the order counts.
fn more(sum: u64, word: u64) -> u64 {
    sum.rotate_left(1).wrapping_add(word)
}

fn add(sum: u64, answer: Answer) -> u64 {
    more(
        more(more(sum, answer.kind), answer.payload),
        answer.count as u64,
    )
}

// The answer of a write, and the candidates that it lists.
fn add_list(sum: u64, answer: Answer, list: &[u32; PLACES]) -> u64 {
    let mut sum = add(sum, answer);
    for intid in &list[..answer.count.min(PLACES)] {
        sum = more(sum, *intid as u64);
    }
    sum
}
