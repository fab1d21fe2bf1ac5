// Where the places of a marking begin is moved by a list of changes, in one pass over its rows and the places.
ghost use Rattle.std.specs.Prelude.{◌≡◌, ◌≤◌};
ghost use Rattle.changes.specs.Tables.{keys_told, olds_told, counts_told};
ghost use Rattle.moving.specs.Moves.{row_place, Movable, IsMoved};

use changes::change::{Row, entry_words};
use occurrence::cover::width_of;

// The place of a row; behind the last row 65, so that no place is above it.
fn row_place(rows: &[Row; 16], n: usize, row: usize) -> usize
    requires { n ≤ 16 }
    ensures { result ≡ row_place (keys_told rows.now) n row }
{
    if n <= row {
        return 65;
    }
    (rows[row].key / 0x100_0000_0000_0000) as usize
}

// Moves where places begin by the words of the changed entries of lesser places. Rows rise by place, so that one pass over rows and places is enough,
// and places up to the first that is changed begin as before.
pub fn move_begins(net: &[u32], places: &[usize], rows: &[Row; 16], n: usize, begins: &mut [usize])
    requires { Movable net.now places.now (keys_told rows.now) (olds_told rows.now) (counts_told rows.now) n begins.old }
    ensures { IsMoved net.now places.now (keys_told rows.now) (olds_told rows.now) (counts_told rows.now) n begins.old begins.new }
{
    let mut old = 0;
    let mut new = 0;
    let mut row = 0;
    let mut p = row_place(rows, n, 0) + 1;
    // A turn passes a row or a place, so that neither index counts the turns.
    while p <= places.len() {
        if row_place(rows, n, row) < p {
            old += rows[row].old;
            new += entry_words(rows[row].count, width_of(net, places, rows[row].key));
            row += 1;
        } else {
            begins[p] = begins[p] + new - old;
            p += 1;
        }
    }
}
