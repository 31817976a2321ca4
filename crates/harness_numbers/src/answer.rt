// What is seen of an answer.
ghost use Rattle.std.specs.Prelude.{◌≡◌};
ghost use Rattle.identifiers.specs.Answer.{told, told_refusal};
ghost use Rattle.harness_numbers.specs.Numbers.{numbers, valued};

use answers::answer::Values;
use identifiers::error::Refusal;

// Kind 0 and the value, or a refusal's number and what it carries; and how many candidates are listed. These are
// numbers, since the Rust reads them as bytes.
#[derive(Clone, Copy, Debug, PartialEq, Eq)]
pub struct Answer {
    pub kind: u64,
    pub payload: u64,
    pub count: usize,
}

impl Answer {
    // No call has this number. The kind is no refusal's.
    pub const UNKNOWN: Answer = Answer {
        kind: 0xff,
        payload: 0,
        count: 0,
    };

    pub fn done(payload: u64) -> Self
        ensures { result ≡ numbers 0 payload 0 }
    {
        Answer {
            kind: 0,
            payload,
            count: 0,
        }
    }

    pub fn listed(count: usize) -> Self
        ensures { result ≡ numbers 0 0 count }
    {
        Answer {
            kind: 0,
            payload: 0,
            count,
        }
    }

    pub fn refused(refusal: Refusal) -> Self
        ensures { result ≡ valued (told_refusal refusal) }
    {
        Answer {
            kind: refusal.number() as u64,
            payload: refusal.carried().unwrap_or(0) as u64,
            count: 0,
        }
    }

    // What is seen of an answer that hands out one number at most.
    pub fn seen<T: Values>(answer: Result<T, Refusal>) -> Self
        ensures { result ≡ valued (told T.values answer) }
    {
        match answer {
            Ok(value) => Answer::done(value.first()),
            Err(refusal) => Answer::refused(refusal),
        }
    }
}
