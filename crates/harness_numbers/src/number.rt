// The values that the numbers of a list stand for.
ghost use Rattle.std.specs.Prelude.{◌≡◌};
ghost use Rattle.harness_numbers.specs.Numbers.{odd, low_byte, low_word, trigger_by, state_by};

use attributes::attributes::{InterruptState, TriggerMode};

pub fn low_byte(n: u64) -> u8
    ensures { result ≡ low_byte n }
{
    (n % 0x100) as u8
}

pub fn low_word(n: u64) -> u32
    ensures { result ≡ low_word n }
{
    (n % 0x1_0000_0000) as u32
}

pub fn odd(n: u64) -> bool
    ensures { result ≡ odd n }
{
    n % 2 == 1
}

pub fn trigger(n: u64) -> TriggerMode
    ensures { result ≡ trigger_by n }
{
    TriggerMode::of(odd(n))
}

pub fn state(n: u64) -> InterruptState
    ensures { result ≡ state_by n }
{
    InterruptState::of(odd(n), odd(n / 2))
}
