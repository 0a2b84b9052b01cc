// The rules of the two lists that make a row game.
ghost use Rattle.std.specs.Prelude.{◌≡◌, ◌&&◌, nat_le};
ghost use Rattle.std.specs.List.{slice_get, list_all};
ghost use Rattle.game.specs.Laws.{most_positions};
ghost use Rattle.game.specs.Refusals.{told};
ghost use Rattle.games.specs.Rows.{side_in, span_of, row_of, span_fits, is_inside, keeps_law, is_lawful, row_refusal, rows_refusal, tells};

use crate::row::{Row, RowsFault};
use game::arena::MOST_POSITIONS;
use game::side::Side;

// The side that a row of a game writes as `n`. Not `Side::try_from`, which takes a byte and may refuse: the rows
// of a game hold 0 or 1.
pub(crate) fn side_in(n: u16) -> Side
    ensures { result ≡ side_in n }
{
    if n == 0 { Side::Green } else { Side::Red }
}

// Row `i`, or a blank one past the end.
fn row_of(rows: &[Row], i: usize) -> Row
    ensures { result ≡ row_of rows.now i }
{
    rows.get(i).copied().unwrap_or_default()
}

// The target of move `k` of a row.
pub(crate) fn target_at(targets: &[u16], row: Row, k: usize) -> Option<usize>
    ensures { result ≡ slice_get (span_of targets.now row) k }
{
    if k >= row.count as usize {
        return None;
    }
    targets.get(row.first as usize + k).map(|t| *t as usize)
}

// Whether the span of a row lies in the list of targets.
fn span_fits(targets: &[u16], row: Row) -> bool
    ensures { result ≡ span_fits targets.now row }
{
    row.first as usize + row.count as usize <= targets.len()
}

// Whether all targets of a span are rows.
fn targets_inside(rows: &[Row], span: &[u16]) -> bool
    ensures { result ≡ list_all (is_inside rows.now) span.now }
{
    span.iter().all(|t| (*t as usize) < rows.len())
}

// Whether a move from one row to another keeps both laws.
fn keeps_law(from: Row, to: Row) -> bool
    ensures { result ≡ keeps_law from to }
{
    from.level < to.level || from.level == to.level && from.kind == to.kind
}

// Whether the moves of a row to all targets of a span do.
fn moves_lawful(rows: &[Row], row: Row, span: &[u16]) -> bool
    ensures { result ≡ list_all (is_lawful rows.now row) span.now }
{
    span.iter()
        .all(|t| keeps_law(row, row_of(rows, *t as usize)))
}

// Whether a game may have so many positions.
fn is_count(count: usize) -> bool
    ensures { result ≡ (nat_le 1 count && nat_le count most_positions) }
{
    count >= 1 && count <= MOST_POSITIONS
}

// The fault of row `i`.
fn row_fault(rows: &[Row], targets: &[u16], i: usize, row: Row) -> Result<(), RowsFault>
    requires { row ≡ row_of rows.now i }
    ensures { told tells result ≡ row_refusal rows.now targets.now i }
{
    if row.owner > 1 || row.kind > 1 || !span_fits(targets, row) {
        return Err(RowsFault::Malformed(i));
    }
    let first = row.first as usize;
    let end = first + row.count as usize;
    let span = &targets[first..end];
    if !targets_inside(rows, span) {
        return Err(RowsFault::Malformed(i));
    }
    if row.level as usize >= rows.len() || !moves_lawful(rows, row, span) {
        return Err(RowsFault::Unlawful(i));
    }
    Ok(())
}

// Why the lists make no game, if they make none.
#[tactic(auto, using(game::proofs::Firsts::first_none, game::proofs::Firsts::first_more, game::proofs::Firsts::first_found))]
pub(crate) fn rows_fault(rows: &[Row], targets: &[u16]) -> Result<(), RowsFault>
    ensures { told tells result ≡ rows_refusal rows.now targets.now }
{
    if !is_count(rows.len()) {
        return Err(RowsFault::Count);
    }
    for (i, row) in rows.iter().enumerate() {
        row_fault(rows, targets, i, *row)?;
    }
    Ok(())
}
