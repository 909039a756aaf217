// Tables that are written row by row: a row for each place, with an entry for each code.
ghost use Rattle.std.specs.Prelude.{◌≡◌, ℕ, ◌+◌, ◌*◌, ◌<◌, length, slice_index_or};
ghost use Rattle.solver.specs.Rows.{Rows};

// Where the entry of a position stands in a table.
pub(crate) fn index(codes: u8, v: u8, c: u8) -> usize
    ensures { result ≡ v * codes + c }
{
    usize::from(v) * usize::from(codes) + usize::from(c)
}

// Gives each entry of a table the value that `entry` answers of its place, its code and what it held. Each row is lent by its
// bounds as a part of the whole table: of a chunk of `chunks_exact_mut` the proof knows no value after the loan.
pub(crate) fn fill<T: Copy, F: Fn(u8, u8, T) -> T>(places: u8, codes: u8, table: &mut [T], entry: F)
    requires callable { (v c : ℕ) (x : T) → v < places → c < codes → F.pre entry v c x }
    requires whole { length table.old ≡ places * codes }
    ensures { Rows places codes (λ v c x y. F.post entry v c x y) table.old table.new }
{
    let width = usize::from(codes);
    for v in 0..places {
        let at = usize::from(v) * width;
        fill_row(v, &mut table[at..at + width], &entry);
    }
}

// The same for the row of place v, which is as wide as there are codes, so that an index in it is a byte.
fn fill_row<T: Copy, F: Fn(u8, u8, T) -> T>(v: u8, row: &mut [T], entry: &F)
    requires callable { (c : ℕ) (x : T) → c < length row.old → F.pre entry.now v c x }
    requires width { length row.old < 256 }
    ensures { (c : ℕ) (d : T) → c < length row.old →
        F.post entry.now v c (slice_index_or row.old c d) (slice_index_or row.new c d) }
{
    for (c, x) in row.iter_mut().enumerate() {
        *x = entry(v, c as u8, *x);
    }
}
