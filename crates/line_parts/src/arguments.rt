// The arguments that a program was started with, by their places. Its own name is at 0.
ghost use Rattle.std.specs.Prelude.{◌≤◌, length};

use std::env::{Env, FillError};

// Whether there is one.
pub fn is_given(rt: &impl Env, place: usize) -> bool {
    let mut space = [0u8; 1];
    !matches!(rt.arg(place, &mut space), Err(FillError::NotPresent))
}

// One put into a buffer: its length, 0 where there is none or it is longer.
pub fn put(rt: &impl Env, place: usize, buffer: &mut [u8]) -> usize
    ensures { result ≤ length buffer.old }
{
    match rt.arg(place, buffer) {
        Ok(n) => n,
        Err(_) => 0,
    }
}

// One, if it is given and a buffer has room for it.
pub fn get<'a>(rt: &impl Env, place: usize, buffer: &'a mut [u8]) -> Option<&'a [u8]> {
    let n = rt.arg(place, buffer).ok()?;
    Some(&buffer[..n])
}
