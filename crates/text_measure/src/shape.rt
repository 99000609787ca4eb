ghost use Rattle.std.specs.Prelude.{◌<◌, ◌≤◌, ◌^◌, length, IfOk, string_bytes};

use std::alloc::{AllocError, Global};

/// How many bytes a text has at most.
const SIZE: usize = 16_777_216;

/// A text that repeats one piece.
#[derive(Clone, Copy)]
pub enum Shape {
    /// One order of millions of events.
    Order,
    /// Millions of inputs.
    Inputs,
    /// Reads of eight sources each.
    Reads,
    /// A number of millions of digits.
    Digits,
    /// A line of blanks.
    Blanks,
    /// A list of millions of sources.
    Sources,
}

impl Shape {
    pub const ALL: [Shape; 6] = [
        Shape::Order,
        Shape::Inputs,
        Shape::Reads,
        Shape::Digits,
        Shape::Blanks,
        Shape::Sources,
    ];

    pub fn name(self) -> &'static str {
        match self {
            Shape::Order => "order",
            Shape::Inputs => "inputs",
            Shape::Reads => "reads",
            Shape::Digits => "digits",
            Shape::Blanks => "blanks",
            Shape::Sources => "sources",
        }
    }

    fn head(self) -> &'static str
        ensures { length result.now ≤ 100 }
    {
        match self {
            Shape::Order => "lasagne-exec 1\nstack 0 0 8\nthread 0 0 running\nco",
            Shape::Inputs | Shape::Reads => "lasagne-exec 1\nstack 0 0 8\nthread 0 0 running\n",
            Shape::Digits => "lasagne-exec 1\nstack 0 0 ",
            Shape::Blanks => "lasagne-exec 1\nstack 0",
            Shape::Sources => "lasagne-exec 1\nstack 0 0 8\nthread 0 0 running\nr 0 init",
        }
    }

    fn piece(self) -> &'static str
        ensures { length result.now ≤ 100 }
    {
        match self {
            Shape::Order => " 0.0",
            Shape::Inputs => "i 0\n",
            Shape::Reads => "r 0 init,init,init,init,init,init,init,init\n",
            Shape::Digits => "8",
            Shape::Blanks => " ",
            Shape::Sources => ",init",
        }
    }

    fn tail(self) -> &'static str
        ensures { length result.now ≤ 100 }
    {
        match self {
            Shape::Inputs | Shape::Reads => "co\nend\n",
            _ => "\nend\n",
        }
    }

    /// As long a text of this shape as may be.
    pub fn text(self, alloc: Global) -> Result<String, AllocError>
        ensures { IfOk result (λ text. length (string_bytes text) < 2 ^ 32) }
    {
        let (head, piece, tail) = (self.head(), self.piece(), self.tail());
        let mut text = String::from_str(alloc, head)?;
        'pieces: for _ in 0..SIZE {
            if text.len() > SIZE - piece.len() - tail.len() {
                break 'pieces;
            }
            text.push_str(piece)?;
        }
        text.push_str(tail)?;
        Ok(text)
    }
}
