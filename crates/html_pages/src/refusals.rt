// The pages that stand where no board is: why there is none, and the paths of a desk.
ghost use Rattle.std.specs.Prelude.{◌≡◌, ◌++◌, IfOk, OnOk};
ghost use Rattle.html_pages.specs.Pieces.{bytes};
ghost use Rattle.html_pages.specs.Refusals.{front_parts, refused_parts};
ghost use Rattle.plan_basics.specs.Refusals.{name_of};

use super::beginnings::put_beginning;
use super::pieces::{Value, put};
use plan_basics::Refusal;
use std::alloc::{AllocError, Global};

// Puts behind a page why there is no board.
fn put_refused(page: &mut Vec<u8>, name: &[u8], is_still: bool) -> Result<(), AllocError>
    ensures { OnOk result (page.new.items ≡ page.old.items ++ bytes (refused_parts is_still name.now)) }
{
    let title = "<title>No board: ~</title>\n<style>\n";
    put_beginning(page, is_still, title, &[Value::Text(name)])?;
    put(
        page,
        "</style>\n</head>\n<body>\n<main>\n<section class=\"wide\"><p class=\"alarm\" role=\"alert\">No board: ~</p>\n<p>NotLoaded: load a plan. Reopen: start the desk again. MomentRange: write until=2024-03-02T06:00, a moment that there is. Past: write one from the plan's clock on. <a href=\"/board\">The board</a> loads again by itself.</p></section>\n</main>\n</body>\n</html>\n",
        &[Value::Text(name)],
    )?;
    Ok(())
}

// Puts the paths of a desk behind a page.
fn put_front(page: &mut Vec<u8>) -> Result<(), AllocError>
    ensures { OnOk result (page.new.items ≡ page.old.items ++ bytes front_parts) }
{
    put_beginning(page, true, "<title>Plan</title>\n<style>\n", &[])?;
    put(
        page,
        "</style>\n</head>\n<body>\n<main>\n<section><h1>Plan</h1>\n<ul>\n<li><a href=\"/board\">Board</a></li>\n<li><a href=\"/board?still\">Board that doesn't load again</a></li>\n<li><a href=\"/forecast\">Forecast</a></li>\n<li><a href=\"/report/occurrences\">Occurrences</a></li>\n<li><a href=\"/report/errors\">In error</a></li>\n<li><a href=\"/report/late\">Late</a></li>\n<li><a href=\"/show/started\">Started</a></li>\n<li><a href=\"/show/resources\">Special resources</a></li>\n<li><a href=\"/show/workstations\">Workstations</a></li>\n<li><a href=\"/show/trackers\">Trackers</a></li>\n<li><a href=\"/health\">Health</a></li>\n</ul>\n<p>By key: /why/OPERATION, /show/operations/OCCURRENCE, and as pages /page/why/OPERATION, /page/show/operations/OCCURRENCE; /show/reach/OPERATION, /show/dependencies/OCCURRENCE; /report/ready/WORKSTATION, /show/intervals/WORKSTATION, /started/WORKSTATION. The board up to a moment: /board?until=2024-03-02T06:00.</p>\n</section>\n</main>\n</body>\n</html>\n",
        &[],
    )?;
    Ok(())
}

/// The page that tells why there is no board; it loads again, unless it is to be still. It fails for want of memory only.
pub fn refused_page(alloc: Global, refusal: Refusal, is_still: bool) -> Result<Vec<u8>, AllocError>
    ensures { IfOk result (λ page. page.items ≡ bytes (refused_parts is_still (name_of refusal))) }
{
    let mut page = Vec::new(alloc);
    put_refused(&mut page, refusal.name().as_bytes(), is_still)?;
    Ok(page)
}

/// The page that leads to the board and to each look of a desk. It fails for want of memory only.
pub fn front_page(alloc: Global) -> Result<Vec<u8>, AllocError>
    ensures { IfOk result (λ page. page.items ≡ bytes front_parts) }
{
    let mut page = Vec::new(alloc);
    put_front(&mut page)?;
    Ok(page)
}
