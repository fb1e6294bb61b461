//! Where the cells of a line end.
ghost use Rattle.std.specs.Prelude.{◌<◌, ◌≤◌, length, take, SomeIff};
ghost use Rattle.text.specs.Cells.{cells};
ghost use Rattle.text.specs.Ends.{TakesEnds};

use crate::cell::SEMICOLON;
use crate::part::position;
use crate::window::{WINDOW, lowest, marks, with, without};

// The ends of the cells of a line that ends among the bytes that are looked at together.
fn near_ends(text: &[u8], end: usize, room: &mut [usize]) -> Option<usize>
    requires near { end < 64 }
    requires seen { 64 ≤ length text.now }
    ensures count { let count = length (cells (take end text.now)) in
        SomeIff result (count ≤ length room.old) count }
    ensures room { TakesEnds (take end text.now) room.old room.new }
{
    let mut marks = with(marks(text, SEMICOLON), end);
    for place in 0..room.len() {
        let at = lowest(marks);
        room[place] = at;
        if at == end {
            return Some(place + 1);
        }
        marks = without(marks, at);
    }
    None
}

// The ends of the cells of a line of any length, found one by one.
fn far_ends(line: &[u8], room: &mut [usize]) -> Option<usize>
    ensures count { let count = length (cells line.now) in
        SomeIff result (count ≤ length room.old) count }
    ensures room { TakesEnds line.now room.old room.new }
{
    let mut start = 0;
    for place in 0..room.len() {
        match position(&line[start..], SEMICOLON) {
            Some(len) => {
                room[place] = start + len;
                start += len + 1;
            }
            None => {
                room[place] = line.len();
                return Some(place + 1);
            }
        }
    }
    None
}

/// Puts the ends of the cells of the line that stands in front of a text up to `end` into the
/// room, from its front on, and answers how many there are; none where there are more than there
/// is room for, and the room is full then.
pub fn cell_ends(text: &[u8], end: usize, room: &mut [usize]) -> Option<usize>
    ensures count { let count = length (cells (take end text.now)) in
        SomeIff result (count ≤ length room.old) count }
    ensures room { TakesEnds (take end text.now) room.old room.new }
{
    if end < WINDOW && text.len() >= WINDOW {
        near_ends(text, end, room)
    } else {
        far_ends(&text[..end.min(text.len())], room)
    }
}
