// Texts of parts: each part has a line with its name and what it holds, then its records; an empty line comes before the next.
use super::crowds::push_chains;
use super::parts::PARTS;
use super::words::{cut, listed};
use std::alloc::Global;

// The lines of a section, if it has this name.
fn lines_of<'a>(section: &'a str, name: &str) -> Option<&'a str> {
    let (header, lines) = cut(section, "\n")?;
    let (its_name, _) = cut(header, ": ")?;
    if its_name == name { Some(lines) } else { None }
}

// The lines of the section of this name.
fn section<'a>(text: &'a str, name: &str) -> Option<&'a str> {
    for section in text.split("\n\n") {
        let lines = lines_of(section, name);
        if lines.is_some() {
            return lines;
        }
    }
    None
}

// Puts a part behind a text: by its name, or as many chains as are told, as `CHAINS*20*255`.
fn push_part(text: &mut String, name: &str) -> Option<()> {
    match name.strip_prefix("CHAINS*") {
        Some(counts) => push_chains(text, counts),
        None => {
            text.push_str(section(PARTS, name)?).ok()?;
            text.push('\n').ok()
        }
    }
}

/// The text that these parts make, one after another.
pub fn joined(alloc: Global, names: &str) -> Option<String> {
    let mut text = String::new(alloc);
    for name in listed(names)?.split_whitespace() {
        push_part(&mut text, name)?;
    }
    Some(text)
}
