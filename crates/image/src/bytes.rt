// Numbers of 4 and of 8 bytes in a slice, the lowest byte first.
ghost use Rattle.std.specs.Prelude.{◌≡◌, ◌+◌, ◌≤◌, length};
ghost use Rattle.std.proofs.lemmas.List.Edits.{sets};
ghost use Rattle.image.specs.Bytes.{bytes_of, number_at};

// The number in the 8 bytes from `at` on.
pub fn load(bytes: &[u8], at: usize) -> u64
    requires { at + 8 ≤ length bytes.now }
    ensures { result ≡ number_at 8 at bytes.now }
{
    u64::from_le_bytes(bytes[at..at + 8].try_into().unwrap())
}

// Puts a number's N lowest bytes into those from `at` on.
pub fn store<const N: usize>(bytes: &mut [u8], at: usize, n: u64)
    requires { (at + N ≤ length bytes.old) × (N ≤ 8) }
    ensures { bytes.new ≡ sets bytes.old at (bytes_of N n) }
{
    bytes[at..at + N].copy_from_slice(&n.to_le_bytes()[..N]);
}
