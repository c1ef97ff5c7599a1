// Tables of a page.
ghost use Rattle.std.specs.Prelude.{◌≡◌, ◌++◌, List, OnOk, flat_map, take};
ghost use Rattle.html_pages.specs.Pieces.{Part, bytes};
ghost use Rattle.board_pages.specs.Tables.{list_parts, more_parts, none_parts, table_parts};
ghost use Rattle.forecast_texts.specs.plan_outlooks.specs.declared.rows.Outlooks.{Outlooks as Told};

use forecast_texts::Outlooks;
use html_pages::{Value, put};
use std::alloc::AllocError;

/// How a row of a table is laid out.
pub(crate) trait Layout<R> {
    // The pieces of a row.
    ghost parts: { Told → R → List Part };

    /// Puts a row of what a forecast tells behind a page. It fails for want of memory only.
    fn put(page: &mut Vec<u8>, told: &Outlooks, row: &R) -> Result<(), AllocError>
        ensures { OnOk result (page.new.items ≡ page.old.items ++ bytes (parts told.now row.now)) };
}

// Puts rows behind a page.
#[tactic(auto, using(html_pages::proofs::Bytes::bytes_append))]
fn put_rows<L: Layout<R>, R>(
    page: &mut Vec<u8>,
    told: &Outlooks,
    rows: &[R],
) -> Result<(), AllocError>
    ensures { OnOk result (page.new.items ≡ page.old.items ++ bytes (flat_map (L.parts told.now) rows.now)) }
{
    for row in rows {
        L::put(page, told, row)?;
    }
    Ok(())
}

// The first of these rows, so many at most.
fn first<R>(rows: &[R], most: usize) -> &[R]
    ensures { result.now ≡ take most rows.now }
{
    if rows.len() <= most {
        rows
    } else {
        &rows[..most]
    }
}

// Puts that a table has no rows behind a page, if it has none.
fn put_none(page: &mut Vec<u8>, count: usize) -> Result<(), AllocError>
    ensures { OnOk result (page.new.items ≡ page.old.items ++ bytes (none_parts count)) }
{
    if count == 0 {
        return put(page, "<tr><td colspan=\"7\">none</td></tr>\n", &[]);
    }
    Ok(())
}

// Puts behind a page how many more rows there are, if there are more.
fn put_more(page: &mut Vec<u8>, count: usize) -> Result<(), AllocError>
    ensures { OnOk result (page.new.items ≡ page.old.items ++ bytes (more_parts count)) }
{
    if count == 0 {
        return Ok(());
    }
    put(
        page,
        "<tr><td colspan=\"7\">and ~ more</td></tr>\n",
        &[Value::Number(count as u64)],
    )
}

// Puts the first of these rows behind a page, so many at most, and how many more there are.
fn put_list<L: Layout<R>, R>(
    page: &mut Vec<u8>,
    told: &Outlooks,
    rows: &[R],
    most: usize,
) -> Result<(), AllocError>
    ensures { OnOk result (page.new.items ≡ page.old.items ++ bytes (list_parts (L.parts told.now) most rows.now)) }
{
    put_none(page, rows.len())?;
    put_rows::<L, R>(page, told, first(rows, most))?;
    put_more(page, rows.len().saturating_sub(most))
}

/// Puts a table of the first of these rows behind a page, so many at most, and how many more there are, under this head. It fails
/// for want of memory only.
pub(crate) fn put_table<L: Layout<R>, R>(
    page: &mut Vec<u8>,
    told: &Outlooks,
    head: &str,
    rows: &[R],
    most: usize,
) -> Result<(), AllocError>
    ensures { OnOk result (page.new.items ≡ page.old.items ++ bytes (table_parts head.now (L.parts told.now) most rows.now)) }
{
    put(page, head, &[])?;
    put_list::<L, R>(page, told, rows, most)?;
    put(page, "</tbody></table></section>\n", &[])?;
    Ok(())
}
