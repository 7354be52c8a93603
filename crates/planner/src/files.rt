// Files read up to a limit, so that no file is read without bound. The runtime and a file's name are apart: a struct of the two would only be taken
// apart again.
use super::failure::{Failure, fail};
use std::fs;
use std::io::Read;

// At most `most` bytes from the start of a file.
pub fn read_start(rt: &HostRuntime, name: &str, most: u64) -> Result<Vec<u8>, Failure> {
    let mut bytes = Vec::new(rt.alloc());
    fs::open(rt, name)
        .and_then(|file| file.take(most).read_to_end(&mut bytes))
        .or_else(|e| fail(rt, format_args!("cannot read {name}: {e}")))?;
    Ok(bytes)
}

// A whole file of at most `most` bytes, as text.
pub fn read_text(rt: &HostRuntime, name: &str, most: u64) -> Result<String, Failure> {
    let bytes = read_start(rt, name, most.saturating_add(1))?;
    // `as`: a usize has no From to u64
    if bytes.len() as u64 > most {
        return fail(
            rt,
            format_args!("{name}: the file has more than {most} bytes"),
        );
    }
    String::from_utf8(bytes).or_else(|_| fail(rt, format_args!("{name}: the file is no text")))
}

// A line of a file without its comment, from `#` on, and without blanks at its ends.
pub fn without_comment(line: &str) -> &str {
    line.split_once('#')
        .map_or(line, |(before, _)| before)
        .trim()
}
