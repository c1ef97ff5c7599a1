// Words and lists of a text.

/// What comes before a mark, and what comes behind it.
pub fn cut<'a>(text: &'a str, mark: &str) -> Option<(&'a str, &'a str)> {
    text.split_once(mark)
}

/// A list without the `-` that stands for an empty one.
pub fn listed(list: &str) -> Option<&str> {
    match list {
        "" => None,
        "-" => Some(""),
        _ => Some(list),
    }
}
