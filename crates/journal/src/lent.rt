// Entries of lent memory, which slots and stored checks are: `N` bytes each, one behind the other.
ghost use Rattle.std.specs.Prelude.{◌≡◌, ◌<◌, ◌*◌, ◌-◌, drop};
ghost use Rattle.journal.specs.Code.Laid.{laid};

use puzzle::index_of;

// The memory from entry `n` on, n from 1; nothing where it ends before it. By `bytes_from` and `saturating_mul` writing
// a record takes a quarter longer.
pub fn from_entry<const N: usize>(memory: &[u8], n: usize) -> &[u8]
    requires { 0 < N }
    ensures { result.now ≡ drop (N * (n - 1)) memory.now }
{
    let index = index_of(n);
    if index > memory.len() / N {
        return &[];
    }
    &memory[N * index..]
}

// Writes an entry behind `index` others; a memory that ends before its end stays as it is.
pub fn write_entry<const N: usize>(memory: &mut [u8], index: usize, bytes: &[u8; N])
    requires { 0 < N }
    ensures { memory.new ≡ laid memory.old (N * index) bytes.now }
{
    if index < memory.len() / N {
        let start = N * index;
        memory[start..start + N].copy_from_slice(bytes);
    }
}
