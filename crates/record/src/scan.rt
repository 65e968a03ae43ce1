// Reading a record before anything is performed: its items in their order
// (17), and what its counts, its givens and the solution say (18 to 27).
ghost use Rattle.std.specs.Prelude.{◌≡◌, IfOk};
ghost use Rattle.puzzle.specs.Refusals.{told};
ghost use Rattle.puzzle.specs.Code.Rows.{flat as flat_of};
ghost use Rattle.record.specs.Errors.{reopen_refusal};
ghost use Rattle.record.specs.Scan.{malformed, parts_of_bytes};
ghost use Rattle.record.specs.Reopen.{unreadable};
ghost use Rattle.record.specs.Code.Counting.{Room, item_step, is_oversized, miscounted_by, counts_of};

use crate::error::ReopenError;
use crate::items::read_item;
use crate::{Item, Phase, Progress, Read, Scanned};
use journal::{MAX_CHECKS, MAX_MOVES};
use puzzle::Layout;
use puzzle::error::WellPosedError;
use puzzle::given_bytes::GivenBytes;

// One item more, counted where it may stand: givens, moves, the undone count once, checks.
#[tactic(auto, unfolding(crate::specs::Code::Counting::item_step, crate::specs::Code::Counting::given_step, crate::specs::Code::Counting::move_step, crate::specs::Code::Counting::undone_step, crate::specs::Code::Counting::check_step, sudoku::specs::Tests::pick, sudoku::specs::Tests::either))]
fn counted(state: Progress, read: Read) -> Option<Progress>
    requires { Room state }
    ensures { result ≡ item_step state read.item read.next }
{
    let mut next = Progress {
        item: state.item + 1,
        at: read.next,
        ..state
    };
    match read.item {
        Item::Given(_) => {
            next.counts.givens += 1;
            (state.phase == Phase::Givens).then_some(next)
        }
        Item::Played(_) => {
            next.phase = Phase::Moves;
            next.counts.moves += 1;
            (state.phase != Phase::Checks).then_some(next)
        }
        Item::Undone(undone) => {
            next.phase = Phase::Checks;
            next.counts.undone = undone;
            (state.phase != Phase::Checks).then_some(next)
        }
        Item::Check(asked) => {
            next.counts.checks += 1;
            next.counts.late |= asked.standing > MAX_MOVES;
            (state.phase == Phase::Checks).then_some(next)
        }
    }
}

// Reads a whole record: 17 with its place, or what it counts.
pub fn scan(bytes: &[u8]) -> Result<Scanned, ReopenError>
    ensures refusal { told reopen_refusal result ≡ malformed bytes.now }
    ensures counts { IfOk result (λ s. s ≡ counts_of (parts_of_bytes bytes.now)) }
{
    let mut state = Progress {
        phase: Phase::Givens,
        item: 1,
        at: 0,
        counts: Scanned {
            givens: 0,
            moves: 0,
            undone: 0,
            checks: 0,
            late: false,
        },
    };
    // items are of several lengths, so the loop is over offsets
    while state.at < bytes.len() {
        let malformed = ReopenError::Malformed { item: state.item };
        let read = read_item(bytes, state.at).ok_or(malformed)?;
        state = counted(state, read).ok_or(malformed)?;
    }
    if state.phase != Phase::Checks {
        return Err(ReopenError::Malformed { item: state.item });
    }
    Ok(state.counts)
}

// Whether 18 speaks of the counts: more moves or checks than are held, or a check's standing above the limit.
#[tactic(auto, unfolding(crate::specs::Code::Counting::is_oversized, sudoku::specs::Tests::either))]
fn is_oversized(s: Scanned) -> bool
    ensures { result ≡ is_oversized s }
{
    s.moves > MAX_MOVES || s.checks > MAX_CHECKS || s.late
}

// 20 and 21.
#[tactic(auto, unfolding(crate::specs::Code::Counting::miscounted_by, puzzle::specs::Refusals::refused_if, puzzle::specs::Refusals::or_else, puzzle::specs::Refusals::is_accepted, sudoku::specs::Tests::both, sudoku::specs::Tests::pick))]
fn miscounted(s: Scanned) -> Result<(), ReopenError>
    ensures { told reopen_refusal result ≡ miscounted_by s }
{
    if s.undone > s.moves {
        return Err(ReopenError::TooManyUndone);
    }
    if s.moves == 0 && s.checks != 0 {
        return Err(ReopenError::ChecksWithoutMoves);
    }
    Ok(())
}

// Reads a record beside its solution before any move is performed: 17 to 27, or what the record counts.
// 19 speaks of all givens of the record, however many they are.
pub fn read_record(bytes: &[u8], rows: [[u8; 9]; 9]) -> Result<Scanned, ReopenError>
    ensures refusal { told reopen_refusal result ≡ unreadable bytes.now (flat_of rows) }
    ensures counts { IfOk result (λ s. s ≡ counts_of (parts_of_bytes bytes.now)) }
{
    let s = scan(bytes)?;
    if is_oversized(s) {
        return Err(ReopenError::Oversized);
    }
    let givens = GivenBytes {
        bytes,
        layout: Layout::Items,
        count: s.givens,
    };
    if !givens.is_ascending() {
        return Err(WellPosedError::NotAscending.into());
    }
    miscounted(s)?;
    givens.vouch(rows)?;
    Ok(s)
}
