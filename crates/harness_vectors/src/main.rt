// Replays the board's twelve, and then a list of the Rust's answers from standard input, and says how many calls it compared
// (docs/ORACLE.md, "The list, replayed"). What the face has of the calls is run through the face as well.
#![tactic(auto)]

mod arguments;
mod board;
mod compare;
mod counts;
mod lexer;
mod line;
mod run;
mod stop;

use crate::counts::Counts;
use crate::lexer::Lexer;
use crate::line::Line;
use crate::run::Run;
use crate::stop::{In, Stop};
use harness_calls::create;
use harness_calls::run::Ran;
use harness_numbers::guest::{PLACES, UNTOUCHED};
use std::io;
use std::io::Read;

// How many bytes of a list are read at a time.
const BUFFER: usize = 65536;

fn main(rt: HostRuntime) -> io::Result<()> {
    let mut buffer = [0; BUFFER];
    match replay(&mut board::Lines::new(), &mut buffer) {
        Ok(Counts { calls, faced, .. }) => {
            println!(rt;
                "the board's twelve: calls compared: {calls}, through the face as well: {faced}"
            )?
        }
        Err(stop) => return println!(rt; "{}", In("the board's ", stop)),
    }
    match replay(&mut rt.stdin(), &mut buffer) {
        Ok(counts) => println!(rt; "{counts}\nno difference"),
        Err(stop) => println!(rt; "{}", In("", stop)),
    }
}

// Runs the calls of a list, line by line, and holds what is seen of each against its line. The Distributor stays in this one loop. A
// function for one line would copy it three times more at each call, and clear as many bytes.
fn replay(list: &mut dyn Read, buffer: &mut [u8; BUFFER]) -> Result<Counts, Stop> {
    let mut d = create::nothing();
    let mut run = Run::new();
    let mut lexer = Lexer::new();
    for _ in 0..u64::MAX {
        let count = list.read(buffer).map_err(|_| Stop::Unread)?;
        if count == 0 {
            break;
        }
        for byte in &buffer[..count] {
            let bad = Stop::Bad(run.line_number());
            if lexer.take_in(*byte).ok_or(bad)? {
                let line = Line::of(lexer.words()).ok_or(bad)?;
                run.take_over(&line)?;
                let mut places = [UNTOUCHED; PLACES];
                let Ran { state, answer } = harness_calls::run::run(d, line.call, &mut places);
                d = state;
                run.compare(&line, answer, d.is_switched_on(), &places, &d.slots())?;
                lexer.clear();
            }
        }
    }
    if lexer.is_within() {
        return Err(Stop::Bad(run.line_number()));
    }
    run.ended()
}
