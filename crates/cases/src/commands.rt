// The cases of one command: what it answers, and the system it leaves.
use crate::line::{Line, Octets};
use crate::row::Operation;
use crate::systems::system;
use election::System;
use soundness::sound;

// Hands a command to a system; accepted, the case of a command shows the system after it.
pub fn command_case(name: Line, operation: Operation, mut s: System, command: &[u8]) -> Line {
    let headed = match operation {
        Operation::Soundness => name.either(sound(&s), ": sound", ": unsound"),
        _ => name.with(Octets(command)),
    };
    let before = s;
    let done = simulator::command(&mut s, command);
    let refusal = done.err().map(|why| why.number());
    let line = headed.told(refusal, done.unwrap_or(0)).kept(s == before);
    if refusal.is_none() && operation == Operation::Command {
        system(line, &s)
    } else {
        line
    }
}
