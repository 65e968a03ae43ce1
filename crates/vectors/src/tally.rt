// What was replayed, and how much of it was otherwise than stored.
use puzzle::Refusal;

#[derive(Clone, Copy, Default)]
pub struct Tally {
    pub sessions: usize,
    pub calls: usize,
    pub readings: usize,
    pub reopenings: usize,
    pub differences: usize,
}

// No count of one block comes near this.
const LARGE: usize = 1000000;

// So many more. A count above LARGE stays as it is: it says enough, and so no input takes it to the greatest number.
pub(crate) fn count(counter: &mut usize, more: usize) {
    if *counter <= LARGE {
        *counter = counter.saturating_add(more);
    }
}

impl Tally {
    // Adds what one block came to, whole, also where it takes a count above LARGE.
    pub(crate) fn add(&mut self, block: Tally) {
        count(&mut self.sessions, block.sessions);
        count(&mut self.calls, block.calls);
        count(&mut self.readings, block.readings);
        count(&mut self.reopenings, block.reopenings);
        count(&mut self.differences, block.differences);
    }

    // A difference, where something is not as it is stored.
    pub(crate) fn expect(&mut self, same: bool) {
        count(&mut self.differences, usize::from(!same));
    }

    // A difference where the lengths differ, and one for each item of the first that the second has otherwise. Behind
    // its end the second reads as zeros; what it has beyond the first differs in its length alone.
    pub(crate) fn expect_all<T: PartialEq + Copy + Default>(&mut self, first: &[T], second: &[T]) {
        self.expect(first.len() == second.len());
        for (i, item) in first.iter().enumerate() {
            self.expect(*item == second.get(i).copied().unwrap_or_default());
        }
    }

    // A difference for each of number, place and inner number.
    pub(crate) fn expect_refusal(&mut self, answer: Refusal, stored: Refusal) {
        self.expect(answer.number == stored.number);
        self.expect(answer.place == stored.place);
        self.expect(answer.inner == stored.inner);
    }

    // A difference, where an answer is another than the bit stored for it.
    pub(crate) fn expect_bit(&mut self, flags: u8, bit: u8, holds: bool) {
        self.expect((flags & bit != 0) == holds);
    }
}
