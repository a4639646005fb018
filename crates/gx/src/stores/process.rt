//! What Linux tells of a process in proc(5).

use std::fs;
use std::os::unix::fs::MetadataExt;

/// The user whose rights this process has, where the system tells.
pub(crate) fn own_user(rt: &HostRuntime) -> Option<u32> {
    match fs::metadata(rt, "/proc/self") {
        Ok(found) => Some(found.uid()),
        Err(_) => None,
    }
}

/// Whether standard input is a file, whose bytes wait for nobody. Where the system doesn't tell it, it isn't.
pub(crate) fn reads_a_file(rt: &HostRuntime) -> bool {
    match fs::metadata(rt, "/proc/self/fd/0") {
        Ok(found) => found.is_file(),
        Err(_) => false,
    }
}

/// How many bytes a file may have that this process writes. Where the system doesn't tell, there is no limit.
pub(crate) fn most_bytes_of_a_file(rt: &HostRuntime) -> u64 {
    match fs::read_to_string(rt, "/proc/self/limits") {
        Ok(limits) => limits
            .lines()
            .filter_map(file_size)
            .next()
            .unwrap_or(u64::MAX),
        Err(_) => u64::MAX,
    }
}

/// The limit that a line of `/proc/self/limits` has for a file's size, if it has one: the first of its two numbers.
fn file_size(line: &str) -> Option<u64> {
    let limits = line.strip_prefix("Max file size")?;
    let soft = limits.split_whitespace().next()?;
    soft.parse::<u64>().ok()
}

/// Whether the umask leaves the group all that a program asks for. Where the system doesn't tell it, it doesn't.
pub(crate) fn leaves_group_bits(rt: &HostRuntime) -> bool {
    match fs::read_to_string(rt, "/proc/self/status") {
        Ok(status) => status.lines().any(is_open_umask),
        Err(_) => false,
    }
}

/// Whether a line tells a umask, in octal digits, whose digit for the group is 0.
fn is_open_umask(line: &str) -> bool {
    match line.strip_prefix("Umask:") {
        Some(digits) => digits.as_bytes().iter().rev().nth(1) == Some(&b'0'),
        None => false,
    }
}
