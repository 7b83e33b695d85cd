// Tables with a row for each word.
ghost use Rattle.std.specs.Prelude.{◌≡◌};
ghost use Rattle.jasmin_lines.specs.Tables as spec;

use crate::words::is;

/// What the first row of this word says.
pub fn row_of<T: Copy>(rows: &[(&[u8], T)], word: &[u8]) -> Option<T>
    ensures { result ≡ spec.row_of word.now (spec.rows_of rows.now) }
{
    let mut rest = rows;
    while let [row, after @ ..] = rest {
        if is(row.0, word) {
            return Some(row.1);
        }
        rest = after;
    }
    None
}
