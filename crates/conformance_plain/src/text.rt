// Bytes and fields of lines of text, with bars between them.

// The byte at a position, 0 past the end.
pub fn byte_at(text: &[u8], at: usize) -> u8 {
    text.get(at).copied().unwrap_or(0)
}

// The position of a byte from a start on, or the length where there is none.
pub fn find(text: &[u8], start: usize, b: u8) -> usize {
    for at in start..text.len() {
        if text[at] == b {
            return at;
        }
    }
    text.len()
}

// A position moved on, as far as the text goes.
pub fn after(text: &[u8], at: usize, bytes: usize) -> usize {
    at.saturating_add(bytes).min(text.len())
}

// The bytes from a start to an end, none where the end comes first or past the text.
pub fn part(text: &[u8], start: usize, end: usize) -> &[u8] {
    text.get(start..end).unwrap_or(&[])
}

// The position of a line's bar by its number, counted from 1, or the line's length where it has fewer.
fn bar(line: &[u8], number: u32) -> usize {
    let mut at = 0;
    for _ in 0..number {
        at = find(line, after(line, at, 1), b'|');
    }
    at
}

// The field of a line after the bar of a number, without the spaces beside it.
pub fn field(line: &[u8], number: u32) -> &[u8] {
    let start = after(line, bar(line, number), 2);
    let next = bar(line, number % 16 + 1);
    if next == line.len() {
        return part(line, start, next);
    }
    part(line, start, next.saturating_sub(1))
}

// The first field of a line, its name, without the space before the bar.
pub fn name(line: &[u8]) -> &[u8] {
    part(line, 0, bar(line, 1).saturating_sub(1))
}
