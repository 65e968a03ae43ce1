// Writing a record: 1, 2 and 14, the record's length against the output's
// (34), then its items laid into the output one after the other. Board, journal and checks come as C hands them over;
// once they are tested they go together, as `Kept`.
ghost use Rattle.std.specs.Prelude.{◌≡◌, ℕ, List, ◌+◌, ◌*◌, ◌≤◌, length, IfOk, OnErr, MatchResult};
ghost use Rattle.puzzle.specs.Givens.{is_given};
ghost use Rattle.sudoku.specs.Tests.{count as count_of};
ghost use Rattle.puzzle.specs.Refusals.{told, accepted as accepted_of};
ghost use Rattle.journal.specs.Limits.{max_moves, max_checks};
ghost use Rattle.journal.specs.Bytes.{over};
ghost use Rattle.record.specs.declared.Item.{Item};
ghost use Rattle.record.specs.declared.Item.TheVariants.{Played};
ghost use Rattle.record.specs.Items.{encode, record_of};
ghost use Rattle.record.specs.Write.{parts_of, unwritable, write_refusal, write_of};
ghost use Rattle.record.specs.Errors.{write_error_refusal};
ghost use Rattle.record.specs.Code.Laying.{given_bytes, givens_bytes, moves_bytes, move_in, check_in, bytes_to};

use crate::error::WriteError;
use crate::{CHECK_ITEM, ERASE_ITEM, GIVEN_ITEM, Item, MOVE_ITEM, UNDONE_ITEM, Written};
use board::Board;
use board::value::lent;
use journal::checks::check_at;
use journal::slots::{is_given, move_of, slot_at};
use journal::{
    Asked, CHECK, CHECK_MEMORY, ERASE, GIVEN, JOURNAL_BYTES, Move, PLACE, STRIKE_MARK, UNDONE,
    WRITE_MARK,
};
use play::sound::all_sound;
use puzzle::answer::accepted;
use puzzle::{Given, Refusal, digit_at};
use sudoku::{CELLS, column_of, row_of};

// How many cells hold a given. Counted in a byte: by `filter` and `count`, in a usize, each cell is a branch, and a
// board without moves takes a quarter longer to write.
pub fn count_givens(given: &[u8; 81]) -> usize
    ensures { (result ≡ count_of (is_given given.now) 81 1) × (result ≤ 81) }
{
    let mut n: u8 = 0;
    for flag in given {
        n += u8::from(*flag != 0);
    }
    usize::from(n)
}

// How many bytes a move's item has.
#[tactic(auto, unfolding(crate::specs::Items::encode))]
pub fn move_length(m: Move) -> usize
    ensures { (result ≡ length (encode (Played m))) × (result ≤ 4) }
{
    match m {
        Move::Place { .. } | Move::WriteMark { .. } | Move::StrikeMark { .. } => MOVE_ITEM,
        Move::Erase { .. } => ERASE_ITEM,
    }
}

// Bytes at an offset; answers where they end. Over an array of `N` bytes writing takes nearly twice as long. Output and
// offset are no struct: each contract would say of both what it says of the output alone, before and after.
fn lay(output: &mut [u8], at: usize, bytes: &[u8]) -> usize
    requires { at + length bytes.now ≤ length output.old }
    ensures { (result ≡ at + length bytes.now) × (output.new ≡ over output.old at bytes.now) }
{
    let end = at + bytes.len();
    output[at..end].copy_from_slice(bytes);
    end
}

// An item, its kind byte in front. It is laid into its callers, each of which has items of one kind: where it is a
// call of its own, the item lies in memory between the two, and writing takes half as long again.
#[tactic(auto, unfolding(crate::specs::Items::encode, journal::specs::Bytes::low, journal::specs::Bytes::second))]
#[inline(always)]
fn lay_item(item: Item, output: &mut [u8], at: usize) -> usize
    requires { at + length (encode item) ≤ length output.old }
    ensures { (result ≡ at + length (encode item)) × (output.new ≡ over output.old at (encode item)) }
{
    match item {
        Item::Given(Given { row, column, digit }) => lay(output, at, &[GIVEN, row, column, digit]),
        Item::Played(Move::Place { row, column, digit }) => lay(
            output,
            at,
            &[PLACE, row, column, digit],
        ),
        Item::Played(Move::Erase { row, column }) => lay(output, at, &[ERASE, row, column]),
        Item::Played(Move::WriteMark { row, column, digit }) => lay(
            output,
            at,
            &[WRITE_MARK, row, column, digit],
        ),
        Item::Played(Move::StrikeMark { row, column, digit }) => lay(
            output,
            at,
            &[STRIKE_MARK, row, column, digit],
        ),
        Item::Undone(n) => {
            let [low, second, ..] = n.to_le_bytes();
            lay(output, at, &[UNDONE, low, second])
        }
        Item::Check(asked) => {
            let [low, second, ..] = asked.standing.to_le_bytes();
            lay(
                output,
                at,
                &[CHECK, low, second, asked.row, asked.column, asked.digit],
            )
        }
    }
}

// The item of a cell's given; nothing where it is none.
#[tactic(auto, unfolding(crate::specs::Code::Laying::given_bytes, crate::specs::Items::encode, sudoku::specs::Tests::pick, sudoku::specs::Grid::row_of))]
fn lay_given(board: &Board, cell: usize, output: &mut [u8], at: usize) -> usize
    requires { (cell ≤ 81) × (at + length (given_bytes board.now.given board.now.digits cell) ≤ length output.old) }
    ensures { (result ≡ at + length (given_bytes board.now.given board.now.digits cell)) × (output.new ≡ over output.old at (given_bytes board.now.given board.now.digits cell)) }
{
    if !is_given(&board.given, cell) {
        return at;
    }
    // row and column are at most 9, since the cell is at most 81: `try_from` would have a case that cannot come
    lay_item(
        Item::Given(Given {
            row: row_of(cell) as u8,
            column: column_of(cell) as u8,
            digit: digit_at(&board.digits, cell),
        }),
        output,
        at,
    )
}

// The items of the givens, in the order of their cells. A cell without a given has no item, so they are not `AsItem`;
// crate lines walks the cells so too, over triples: one function of both would be a trait around this loop.
fn lay_givens(board: &Board, output: &mut [u8]) -> usize
    requires { length (givens_bytes board.now) ≤ length output.old }
    ensures { (result ≡ length (givens_bytes board.now)) × (output.new ≡ over output.old 0 (givens_bytes board.now)) }
{
    let mut at = 0;
    for cell in 1..=CELLS {
        at = lay_given(board, cell, output, at);
    }
    at
}

// What lent memory holds one behind the other, numbered from 1, each of which is an item of the record. Apart from
// `play::sound::Stored`, since an item is this crate's.
trait AsItem {
    ghost item_in: { List ℕ → ℕ → Item };

    fn item_at(memory: &[u8], n: usize) -> Item
        ensures { result ≡ item_in memory.now n };
}

impl AsItem for Move {
    ghost item_in = { move_in };

    fn item_at(journal: &[u8], n: usize) -> Item {
        Item::Played(move_of(slot_at(journal, n)))
    }
}

impl AsItem for Asked {
    ghost item_in = { check_in };

    #[tactic(auto, unfolding(crate::specs::Items::check_item))]
    fn item_at(checks: &[u8], n: usize) -> Item {
        Item::Check(check_at(checks, n))
    }
}

// The items 1 to `count` of the memory.
fn lay_stored<S: AsItem>(memory: &[u8], count: usize, output: &mut [u8], start: usize) -> usize
    requires { start + length (bytes_to (S.item_in memory.now) count) ≤ length output.old }
    ensures { (result ≡ start + length (bytes_to (S.item_in memory.now) count)) × (output.new ≡ over output.old start (bytes_to (S.item_in memory.now) count)) }
{
    let mut at = start;
    for n in 1..=count {
        at = lay_item(S::item_at(memory, n), output, at);
    }
    at
}

// What is written: a board and its memory that 1, 2 and 14 do not refuse. `tested` alone makes one.
#[derive(Clone, Copy)]
struct Kept<'a> {
    board: &'a Board,
    journal: &'a [u8],
    checks: &'a [u8],
    ghost made_fits: { board.now.made ≤ max_moves },
    ghost standing_fits: { board.now.standing ≤ board.now.made },
    ghost checks_fit: { board.now.checks ≤ max_checks },
}

impl<'a> Kept<'a> {
    // 1, 2 and 14.
    fn tested(board: &'a Board, journal: &'a [u8], checks: &'a [u8]) -> Result<Kept<'a>, WriteError>
        ensures refusal { told write_error_refusal result ≡ unwritable board.now journal.now checks.now }
        ensures same { IfOk result (λ k. (k.board.now ≡ board.now) × (k.journal.now ≡ journal.now) × (k.checks.now ≡ checks.now)) }
    {
        let fits = (journal.len() == JOURNAL_BYTES) & (checks.len() == CHECK_MEMORY);
        lent(*board, fits)?;
        all_sound::<Move>(&board.given, journal, board.made)?;
        all_sound::<Asked>(&board.given, checks, board.checks)?;
        Ok(Kept {
            board,
            journal,
            checks,
        })
    }

    // How many bytes the items of slots 1 to made have.
    #[tactic(auto, using(crate::proofs::Laying::length_all, crate::proofs::Laying::length_turn, crate::proofs::Laying::length_none))]
    fn moves_length(&self) -> usize
        ensures { (result ≡ length (moves_bytes self.now.journal.now self.now.board.now.made)) × (result ≤ 4 * self.now.board.now.made) }
    {
        // A loop: by `map` and `sum` writing takes up to a tenth longer, and the proof is half as long again.
        let mut total = 0;
        for n in 1..=self.board.made {
            total += move_length(move_of(slot_at(self.journal, n)));
        }
        total
    }

    // How many bytes the record has: four for a given, three or
    // four for a move, three for the undone count, six for a check.
    fn length(&self) -> usize
        ensures { result ≡ length (record_of (parts_of self.now.board.now self.now.journal.now self.now.checks.now)) }
    {
        GIVEN_ITEM * count_givens(&self.board.given)
            + self.moves_length()
            + UNDONE_ITEM
            + CHECK_ITEM * self.board.checks
    }

    // The whole record: givens, moves, the undone count, checks.
    fn lay(&self, output: &mut [u8])
        requires { length (record_of (parts_of self.now.board.now self.now.journal.now self.now.checks.now)) ≤ length output.old }
        ensures { output.new ≡ over output.old 0 (record_of (parts_of self.now.board.now self.now.journal.now self.now.checks.now)) }
    {
        let moves = lay_givens(self.board, output);
        let count = lay_stored::<Move>(self.journal, self.board.made, output, moves);
        let undone = self.board.made - self.board.standing;
        let asked = lay_item(Item::Undone(undone), output, count);
        lay_stored::<Asked>(self.checks, self.board.checks, output, asked);
    }
}

impl Written {
    // What a call that writes bytes answers: how many it wrote, or why it wrote none.
    pub fn told<E: Into<Refusal>>(outcome: Result<usize, E>) -> Written
        ensures { MatchResult outcome (λ n. result ≡ record { refusal = accepted_of; length = n }) (λ e. (E.converts e result.refusal) × (result.length ≡ 0)) }
    {
        match outcome {
            Ok(length) => Written {
                refusal: accepted(),
                length,
            },
            Err(e) => Written {
                refusal: e.into(),
                length: 0,
            },
        }
    }
}

// Lays the record into the output; answers its length.
#[tactic(auto, unfolding(crate::specs::Write::write_refusal, puzzle::specs::Refusals::or_else, puzzle::specs::Refusals::refused_if, puzzle::specs::Refusals::is_accepted, sudoku::specs::Tests::pick))]
fn written(
    board: &Board,
    journal: &[u8],
    checks: &[u8],
    output: &mut [u8],
) -> Result<usize, WriteError>
    ensures refusal { told write_error_refusal result ≡ write_refusal board.now journal.now checks.now output.old }
    ensures laid { IfOk result (λ n. (n ≡ length (record_of (parts_of board.now journal.now checks.now))) × (output.new ≡ over output.old 0 (record_of (parts_of board.now journal.now checks.now)))) }
    ensures kept { OnErr result (output.new ≡ output.old) }
{
    let kept = Kept::tested(board, journal, checks)?;
    let length = kept.length();
    if output.len() < length {
        return Err(WriteError::OutputTooShort);
    }
    kept.lay(output);
    Ok(length)
}

// Writes a board and its memory down as a record. Refused by 1 2 14 34.
pub fn write(board: Board, journal: &[u8], checks: &[u8], output: &mut [u8]) -> Written
    ensures { (result ≡ (write_of board journal.now checks.now output.old).answer) × (output.new ≡ (write_of board journal.now checks.now output.old).output) }
{
    Written::told(written(&board, journal, checks, output))
}
