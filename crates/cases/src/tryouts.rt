// The cases of try-outs: what each answers, whether the system is the same after it, and the buffer as it is then, to a bar.
use crate::line::Line;
use crate::row::Row;
use dryrun::dry_run;
use election::System;

// Tries the command of a row out, of which at most sixteen bytes are taken, with the bytes after it as the buffer.
pub fn tryout_case(name: Line, row: &Row, s: &System, bytes: &mut [u8]) -> Option<Line> {
    let (command, buffer) = bytes.split_at_mut_checked(row.part.wrapping_sub(row.cut))?;
    let command = command.get(..16).unwrap_or(command);
    let before = *s;
    let tried = dry_run(s, command, buffer);
    let size = buffer.len();
    let line = name
        .told(tried.refusal.map(|why| why.number()), tried.written)
        .with(format_args!(" of {size}"))
        .kept(*s == before)
        .with("\n")
        .bytes(buffer)
        .with("|");
    Some(line)
}
