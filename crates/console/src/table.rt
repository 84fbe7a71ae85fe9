// Tables of texts. A row is a line of its table, behind the two digits of its number and one more character.
ghost use Rattle.std.specs.Prelude.{◌≤◌, length};

// Where the line that begins there ends.
fn row_end(table: &[u8], start: usize) -> usize
    requires { start ≤ length table.now }
    ensures { (start ≤ result) × (result ≤ length table.now) }
{
    match table[start..].iter().position(|b| *b == b'\n') {
        Some(n) => start + n,
        None => table.len(),
    }
}

// Where row k of a table begins; where the table has no row k, it is the table's end.
fn row_start(table: &[u8], k: u8) -> usize
    ensures { result ≤ length table.now }
{
    let digits = [b'0' + k / 10, b'0' + k % 10];
    let mut i = 0;
    // Not a range: a step is a line of the table.
    while i + 2 < table.len() {
        if table[i..].starts_with(&digits) {
            return i + 3;
        }
        i = row_end(table, i) + 1;
    }
    table.len()
}

// Row k of a table; an empty one where the table has no such row.
pub fn row(table: &[u8], k: u8) -> &[u8] {
    let start = row_start(table, k);
    let end = row_end(table, start);
    &table[start..end]
}
