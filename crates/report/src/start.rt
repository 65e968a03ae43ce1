// The referee's command line, and the two files that it names.
use crate::story::{one_move, whole};
use board::Board;
use files::Memory;
use files::arguments::{count, word};
use files::disk::{FILE_BYTES, PATH_MAX, read, read_cells};
use print::show;
use print::words::explain;
use reopen::reopen;
use std::env::Env;
use std::rt::Files;
use texts::commands::number;

fn usage() {
    show(
        "referee RECORD SOLUTION     the puzzle, every move, every check, the final board\n\
referee RECORD SOLUTION K   move K, and the board as it stood after it\n\
RECORD is a saved game, SOLUTION a text of 81 digits; blanks and line ends in it do not count.\n",
    );
}

// A record reopened with its solution. Of one that does not reopen nothing is said but the refusal.
fn reopened(record: &[u8], right: &[u8; 81], memory: &mut Memory) -> Option<Board> {
    let answer = reopen(record, right, &mut memory.journal, &mut memory.checks);
    if let Err(refused) = answer.refusal.outcome() {
        show("the record does not reopen, ");
        explain(refused);
        return None;
    }
    Some(answer.board)
}

// The record in a file.
fn reopened_file<R: Files>(
    rt: &R,
    path: &[u8],
    right: &[u8; 81],
    memory: &mut Memory,
) -> Option<Board> {
    let mut file = [0u8; FILE_BYTES];
    let record = read(rt, path, &mut file)?;
    reopened(record, right, memory)
}

// The record judged: whole, or one move of it.
fn judge<R: Files>(rt: &R, path: &[u8], right: &[u8; 81], one: Option<usize>) {
    let mut memory = Memory::new();
    let Some(board) = reopened_file(rt, path, right, &mut memory) else {
        return;
    };
    match one {
        None => whole(board, &memory),
        Some(k) => one_move(board, &memory, k),
    }
}

// The record of the first word of the command line, with a solution.
fn judge_first<R: Files + Env>(rt: &R, right: &[u8; 81], one: Option<usize>) {
    let mut path = [0u8; PATH_MAX];
    match word(rt, 1, &mut path) {
        None => show("the name of the record is empty or too long\n"),
        Some(path) => judge(rt, path, right, one),
    }
}

// With the solution in the file of the second word.
fn with_solution<R: Files + Env>(rt: &R, one: Option<usize>) {
    let mut path = [0u8; PATH_MAX];
    match word(rt, 2, &mut path) {
        None => show("the name of the solution is empty or too long\n"),
        Some(path) => {
            if let Some(right) = read_cells(rt, path) {
                judge_first(rt, &right, one);
            }
        }
    }
}

// The number that word i says.
fn number_of<R: Env>(rt: &R, i: usize) -> Option<usize> {
    let mut text = [0u8; PATH_MAX];
    let text = word(rt, i, &mut text)?;
    number(text)
}

// One move, whose number is the third word.
fn with_number<R: Files + Env>(rt: &R) {
    match number_of(rt, 3) {
        None => show("the third word is to be the number of a move\n"),
        k => with_solution(rt, k),
    }
}

// The referee.
pub fn run<R: Files + Env>(rt: &R) {
    match count(rt) {
        3 => with_solution(rt, None),
        4 => with_number(rt),
        _ => usage(),
    }
}
