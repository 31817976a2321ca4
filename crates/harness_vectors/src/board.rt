// The board's twelve cases as a list: each call with what the paper says to it. All but the first and the last are from a fresh K.
use std::io;
use std::io::Read;

// A fresh K.
const K: &[u8] =
    b"10 28 1 10000 0 0 0 0 0 0\n15 21 0 0 0 0 0 0 0 1 1 800080\n15 40 0 0 0 0 0 0 0 1 20 800080\n16 41 1 0 0 0 0 0 0 1 21 100800380\n";

const LIST: [&[u8]; 35] = [
    // 988 SPIs are made, 989 are refused.
    b"10 3dc 1 10000 0 0 0 0 0 0\n",
    b"10 3dd 1 10000 0 1 3fc 0 0 0\n",
    // The identification registers, and an offset that is no multiple of the width.
    K,
    b"11 ffe8 4 0 0 0 3b 0 0 0\n",
    b"11 ffe8 1 0 0 4 0 0 0 0\n",
    K,
    b"11 ffe9 1 0 0 0 0 0 0 0\n",
    b"11 102 4 0 0 3 0 0 0 0\n",
    // The end of all offsets, and TYPER.
    K,
    b"11 fffffffffffffffc 4 0 0 3 0 0 0 0\n",
    K,
    b"11 4 4 0 0 0 780002 0 0 0\n",
    // A write that runs past the table, and one past the last INTID of an SPI.
    K,
    b"12 108 4 1ff 28 1 48 0 0 2 20 800081 21 100800381\n",
    b"11 108 4 0 0 0 3 0 0 0\n",
    K,
    b"12 17c 4 f0000000 28 0 0 0 0 0\n",
    // A route, and a fixed one.
    K,
    b"12 6108 8 180020304 28 0 0 0 0 1 1 102030400800280\n",
    b"11 6108 8 0 0 0 100020304 0 0 0\n",
    K,
    b"12 6208 8 2 28 0 0 0 0 0\n",
    b"11 6208 8 0 0 0 1 0 0 0\n",
    // 33's line is high, and it is cleared.
    K,
    b"37 21 1 0 0 0 0 0 0 1 1 8000a2\n",
    b"12 284 4 2 28 0 0 0 0 1 1 8000a0\n",
    b"23 21 0 0 0 0 0 0 0 0\n",
    // 33 is enabled, pulsed and released. Then the switch.
    K,
    b"22 21 1 0 0 0 0 0 0 1 1 800081\n",
    b"38 21 0 0 0 0 0 0 0 1 1 800083\n",
    b"17 21 0 0 0 0 0 0 0 1 1 800003\n",
    b"12 0 4 2 28 0 0 1 21 1 0\n",
    // A write past the last SPI of a whole table.
    b"10 3dc 0 10000 0 0 0 0 0 0\n",
    b"12 7f8 8 8877665544332211 3dc 0 0 0 0 4 3d8 110000 3d9 220000 3da 330000 3db 440000\n",
    b"11 7f8 8 0 0 0 44332211 0 0 0\n",
];

// The list, as something to read. Each read gives one element. None is empty, which would end the list, and `BUFFER` is longer than any, so
// none is cut.
#[derive(Drop)]
pub struct Lines {
    // The next element.
    at: usize,
}

impl Lines {
    pub fn new() -> Self {
        Lines { at: 0 }
    }
}

impl Read for Lines {
    fn read(&mut self, buffer: &mut [u8]) -> io::Result<usize> {
        let Some(lines) = LIST.get(self.at) else {
            return Ok(0);
        };
        self.at += 1;
        let count = lines.len().min(buffer.len());
        buffer[..count].copy_from_slice(&lines[..count]);
        Ok(count)
    }
}
