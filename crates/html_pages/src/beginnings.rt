// How a page begins and looks, which is the same whatever it tells.
ghost use Rattle.std.specs.Prelude.{◌≡◌, ◌++◌, OnOk, map};
ghost use Rattle.html_pages.specs.Beginnings.{beginning_parts, refresh};
ghost use Rattle.html_pages.specs.Pieces.{bytes, filled, text_of};

use super::pieces::{Value, put};
use std::alloc::AllocError;

/// From its beginning on.
const BEGINNING: &str = "<!doctype html>\n<html lang=\"en\">\n<head>\n<meta charset=\"utf-8\">\n\
<meta name=\"viewport\" content=\"width=device-width,initial-scale=1\">\n";

/// Colours, by day and by night, and how its parts stand.
const STYLE: &str = "\
:root{color-scheme:light dark;--ink:#16191d;--soft:#4c5661;--line:#c9d0d7;--back:#fff;--go:#0a5f9e;--bad:#a8321a;--on:#fff}\n\
@media (prefers-color-scheme:dark){:root{--ink:#e8eaed;--soft:#a9b2bc;--line:#3c444d;--back:#14171a;--go:#6cb6f5;--bad:#ff9d85;--on:#14171a}}\n\
*{box-sizing:border-box}\n\
body{margin:0;color:var(--ink);background:var(--back);font:16px/1.4 system-ui,\"DejaVu Sans\",sans-serif;font-variant-numeric:tabular-nums}\n\
a{color:inherit}\n\
header{display:flex;flex-wrap:wrap;align-items:center;gap:.4rem 2rem;padding:.5rem 1rem;border-bottom:3px solid}\n\
h1{margin:0;font-size:3.6rem;line-height:1}\n\
h2{margin:0 0 .2rem;font-size:1.2rem}\n\
header p{margin:0}\n\
small{color:var(--soft);font-size:.85rem;font-weight:400}\n\
h1 small{display:block;margin-bottom:.2rem;font-size:1rem}\n\
ul{display:flex;flex-wrap:wrap;gap:.5rem;margin:0;padding:0;list-style:none}\n\
li,.alarm{padding:.1rem .8rem;border:2px solid var(--line);border-radius:6px}\n\
li b{font-size:1.7rem}\n\
.alarm{color:var(--on);background:var(--bad);border-color:var(--bad)}\n\
main{display:grid;grid-template-columns:repeat(auto-fit,minmax(min(100%,36rem),1fr));gap:.9rem 2.5rem;padding:.7rem 1rem}\n\
section{min-width:0;overflow-x:auto}\n\
.wide{grid-column:1/-1}\n\
table{width:100%;border-collapse:collapse}\n\
th,td{padding:.2rem .9rem .2rem 0;border-bottom:1px solid var(--line);text-align:left;vertical-align:baseline}\n\
thead th{color:var(--soft);font-size:.85rem;font-weight:400}\n\
tbody th{white-space:nowrap}\n\
.bad{color:var(--bad);font-weight:700}\n";

// What has a page loaded again, unless it is to be still.
fn refresh(is_still: bool) -> &'static str
    ensures { result.now ≡ refresh is_still }
{
    if is_still {
        ""
    } else {
        "<meta http-equiv=\"refresh\" content=\"30\">\n"
    }
}

/// Puts the beginning of a page behind it, up to its colours: loaded again unless it is to be still, under a title. It fails for want
/// of memory only.
pub fn put_beginning(
    page: &mut Vec<u8>,
    is_still: bool,
    title: &str,
    values: &[Value<'_>],
) -> Result<(), AllocError>
    ensures { OnOk result (page.new.items ≡ page.old.items ++ bytes (beginning_parts is_still (filled title.now (map text_of values.now)))) }
{
    put(page, BEGINNING, &[])?;
    put(page, refresh(is_still), &[])?;
    put(page, title, values)?;
    put(page, STYLE, &[])?;
    Ok(())
}
