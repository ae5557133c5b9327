// Updates of a board, one a line in hexadecimal: what became of each, and the document in the end.
#![tactic(auto)]

use crate::report::{Report, Rows};
use anyhow::{bail, ensure};
use boards::count_board::CountBoard;
use boards::slot_board::SlotBoard;
use document::host::DocumentHost;
use document::tally::Tally;
use hexadecimal::input::read_input;
use hexadecimal::lines::Lines;
use std::rt::{Env, Files};
use std::{env, fmt};

mod report;

// How the program is called.
const USAGE: &str = "usage: board_updates count|slot [FILE] ..";

// The board that takes the updates.
#[derive(Clone, Copy)]
enum Board {
    Count,
    Slot,
}

impl fmt::Display for Board {
    // What it is called.
    fn fmt<W: fmt::Write>(&self, f: &mut fmt::Formatter<W>) -> fmt::Result {
        match self {
            Board::Count => write!(f, "count board"),
            Board::Slot => write!(f, "slot board"),
        }
    }
}

// A board that is asked for, and the file with its updates.
#[derive(Drop)]
struct Asked {
    board: Board,
    file: Option<String>,
}

impl Asked {
    // The updates come from standard input, unless a file is named after the board.
    fn new(board: Board) -> Asked {
        Asked { board, file: None }
    }
}

// The arguments: one board or more, each with at most one file.
fn read_args(rt: &(impl Env + AllocGlobal)) -> anyhow::Result<Vec<Asked>> {
    let mut asked: Vec<Asked> = Vec::new(rt.alloc());
    for arg in env::args(rt)?.skip(1) {
        match arg.as_str() {
            "count" => asked.push(Asked::new(Board::Count))?,
            "slot" => asked.push(Asked::new(Board::Slot))?,
            _ => match asked.last_mut() {
                Some(last) if last.file.is_none() => last.file = Some(arg),
                _ => bail!("{USAGE}"),
            },
        }
    }
    ensure!(!asked.is_empty(), "{USAGE}");
    Ok(asked)
}

// Takes the update of each line in turn, counted from 1, and shows the document that comes of it.
fn take_lines<H: DocumentHost + Rows + Drop>(
    rt: &(impl Print + AllocGlobal),
    input: &[u8],
) -> anyhow::Result<()> {
    let mut board: Tally<H> = Tally::new();
    for (number, line) in (1..=u64::MAX).zip(Lines(input)) {
        let mut report = Report::new(rt.alloc());
        report.add_line(number, line, &mut board)?;
        print!(rt; "{report}")?;
    }
    let mut report = Report::new(rt.alloc());
    report.add_board(&board)?;
    print!(rt; "{report}")?;
    Ok(())
}

// The updates of each board that is named, on a fresh one.
fn main(rt: HostRuntime) -> anyhow::Result<()> {
    for asked in read_args(&rt)? {
        let input = read_input(&rt, asked.file.as_deref())?;
        let board = asked.board;
        println!(rt; "{board}")?;
        match board {
            Board::Count => take_lines::<CountBoard>(&rt, input.as_slice())?,
            Board::Slot => take_lines::<SlotBoard>(&rt, input.as_slice())?,
        }
    }
    Ok(())
}
