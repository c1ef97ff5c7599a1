// The page of a look's text, in which each key is a path to what is shown of it.
ghost use Rattle.std.specs.Prelude.{◌≡◌, ◌++◌, ◌==◌, ◌&&◌, IfOk, OnOk, [], count_by};
ghost use Rattle.html_pages.specs.Looks.{begins_next, is_gap, is_number, linked, look_parts, number_parts, slashes, word_parts};
ghost use Rattle.html_pages.specs.Pieces.{bytes};

use super::beginnings::put_beginning;
use super::pieces::{Value, put};
use std::alloc::{AllocError, Global};

// Whether a byte is a blank or a line's end.
fn is_gap(byte: u8) -> bool
    ensures { result ≡ is_gap byte }
{
    byte == b' ' || byte == b'\n'
}

// How many slashes a word has: one in the key of an occurrence, two in that of an operation.
fn slashes(word: &[u8]) -> usize
    ensures { result ≡ slashes word.now }
{
    word.iter().filter(|byte| **byte == b'/').count()
}

// Whether a word begins with a digit.
fn is_number(word: &[u8]) -> bool
    ensures { result ≡ is_number word.now }
{
    match word.first() {
        Some(byte) => *byte >= b'0' && *byte <= b'9',
        None => false,
    }
}

// Puts a word that is no key behind a page: as it is, or as the number of an operation of this occurrence.
fn put_number(page: &mut Vec<u8>, key: &[u8], is_row: bool, word: &[u8]) -> Result<(), AllocError>
    ensures { OnOk result (page.new.items ≡ page.old.items ++ bytes (number_parts key.now is_row word.now)) }
{
    if is_row {
        put(
            page,
            "<a href=\"/page/why/~/~\">~</a>",
            &[Value::Path(key), Value::Text(word), Value::Text(word)],
        )
    } else {
        put(page, "~", &[Value::Text(word)])
    }
}

// Puts a word behind a page: the key of an operation, that of an occurrence, or neither.
fn put_word(page: &mut Vec<u8>, key: &[u8], begins: bool, word: &[u8]) -> Result<(), AllocError>
    ensures { OnOk result (page.new.items ≡ page.old.items ++ bytes (word_parts key.now begins word.now)) }
{
    let slashes = slashes(word);
    let values = [Value::Path(word), Value::Text(word)];
    if slashes == 2 {
        put(page, "<a href=\"/page/why/~\">~</a>", &values)
    } else if slashes == 1 {
        put(page, "<a href=\"/page/show/operations/~\">~</a>", &values)
    } else {
        put_number(page, key, begins && is_number(word), word)
    }
}

// Whether the next word begins a row, after this one and this gap, where there are rows.
fn begins_next(has_rows: bool, begins: bool, word: &[u8], gap: u8) -> bool
    ensures { result ≡ begins_next has_rows begins word.now gap }
{
    if gap == b'\n' {
        has_rows
    } else {
        begins && word.is_empty()
    }
}

// Puts a text behind a page, word by word.
fn put_linked(page: &mut Vec<u8>, key: &[u8], has_rows: bool, text: &[u8]) -> Result<(), AllocError>
    ensures { OnOk result (page.new.items ≡ page.old.items ++ bytes (linked key.now has_rows has_rows [] text.now)) }
{
    let mut begins = has_rows;
    let mut word = Vec::new(*page.allocator());
    for byte in text {
        if is_gap(*byte) {
            put_word(page, key, begins, &word)?;
            page.push(*byte)?;
            begins = begins_next(has_rows, begins, &word, *byte);
            word.clear();
        } else {
            word.push(*byte)?;
        }
    }
    put_word(page, key, begins, &word)
}

/// The page of a look's text, under a key: each key in it is a path, and so is the number of each row, where it has rows of the
/// operations of this key's occurrence. It fails for want of memory only.
pub fn look_page(
    alloc: Global,
    key: &[u8],
    has_rows: bool,
    text: &[u8],
) -> Result<Vec<u8>, AllocError>
    ensures { IfOk result (λ page. page.items ≡ bytes (look_parts key.now has_rows text.now)) }
{
    let mut page = Vec::new(alloc);
    put_beginning(
        &mut page,
        true,
        "<title>~</title>\n<style>\n",
        &[Value::Text(key)],
    )?;
    put(
        &mut page,
        "pre{font-size:1rem}\n</style>\n</head>\n<body>\n<main>\n<section class=\"wide\"><p><a href=\"/board\">Board</a></p>\n<pre>",
        &[],
    )?;
    put_linked(&mut page, key, has_rows, text)?;
    put(
        &mut page,
        "</pre></section>\n</main>\n</body>\n</html>\n",
        &[],
    )?;
    Ok(page)
}
