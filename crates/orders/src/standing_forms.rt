//! What is told of a standing of a pattern that cannot be read.

use regmodel::limits::MOST_PROCESSES;

/// The standing at this place of a text, counted from 0: what stands behind so many `; `, up to the
/// next one.
pub(crate) fn standing_at(text: &str, place: usize) -> &str {
    text.split("; ").nth(place).unwrap_or("")
}

/// What to write in place of this standing, which stands at this place of its pattern.
pub(crate) fn form_for(standing: &str, place: usize) -> &'static str {
    if place >= MOST_PROCESSES {
        return "a pattern has 1 to 8 standings";
    }
    if standing.contains(';') || standing.contains(',') {
        return "write '; ' between two standings, as in 'done 1; *'";
    }
    if standing.starts_with("outcome ") {
        return "leave out the word outcome";
    }
    if standing.starts_with("done ") && standing.contains('*') {
        return "write done * for any numbers, or done * 9 * where 9 has to be among them";
    }
    match standing.as_bytes() {
        [] => "write * for a process that may stand in any way",
        [b'd' | b'D', ..] => {
            "write done and at most 8 numbers up to 1000000000, as done 1 20, or done * for any"
        }
        [b'f' | b'F', ..] => "write fault and its code, 1 to 4, as fault 1",
        [b'c' | b'C', ..] => "write crashed, or crashed idle where the process took no step",
        [b'r' | b'R', ..] => "write running, or running idle where the process took no step",
        [b'i' | b'I', ..] => "write idle behind how the process stands, as done idle",
        [b'0'..=b'9', ..] => {
            "write done before its numbers, and the pattern as one word, as 'done 1; *'"
        }
        _ => "write *, done *, done * 9 *, done 1 20, fault 1, crashed or running",
    }
}
