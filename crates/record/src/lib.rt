//! The record that the service engineer reads: a line of text for each line of a listing. It hands on the picture in characters.
#![tactic(auto)]

ghost use Rattle.std.specs.Prelude.{◌≡◌, IfOk, Some, string_bytes};
ghost use Rattle.record.specs.Texts.{kind_word, line_text, fault_text};

pub use letters::{ink_letter, picture_row};
use listing::line::Line;
use raster::shape::Shape;
use shape_list::fault::Fault;
use std::alloc::{AllocError, Global};
use std::fmt;

/// A line of a listing with its number, whose shape covers so many pixels.
// No `Option` of the count: only the text of a shape's line has it, and an `Option` would let a shape's line have none.
#[derive(Clone, Copy)]
pub struct Record {
    pub number: u64,
    pub line: Line,
    pub pixels: u32,
}

impl fmt::Display for Record {
    ghost output = { λ r. Some (line_text r.number r.line r.pixels) };

    fn fmt<W: fmt::Write>(&self, f: &mut fmt::Formatter<W>) -> fmt::Result {
        let Record {
            number: k,
            line,
            pixels,
        } = *self;
        match line {
            Line::Sheet { width, height } => write!(f, "{k} sheet {width} x {height}"),
            Line::Shape { number, shape, ink } => {
                let kind = kind(shape);
                write!(f, "{k} {kind} {number}: {pixels} pixels, ink {ink}")
            }
            Line::Span {
                number,
                shape,
                from,
                to,
                ink,
            } => {
                write!(
                    f,
                    "{k} span {number}: shape {shape}, frames {from} to {to}, ink {ink}"
                )
            }
            Line::Frame { frame } => write!(f, "{k} frame {frame}"),
        }
    }
}

/// The word for the kind of a shape.
fn kind(shape: Shape) -> &'static str
    ensures { result.now ≡ kind_word shape }
{
    match shape {
        Shape::Box(_) => "box",
        Shape::Line(_) => "line",
        Shape::Figure(_) => "figure",
    }
}

/// The record of line k of a listing, whose shape covers so many pixels.
pub fn line_record(heap: Global, k: u64, line: Line, pixels: u32) -> Result<String, AllocError>
    ensures { IfOk result (λ s. string_bytes s ≡ line_text k line pixels) }
{
    let record = Record {
        number: k,
        line,
        pixels,
    };
    record.to_string(heap)
}

/// What is said of a line that was not taken, with its number.
#[derive(Clone, Copy, Debug)]
pub struct Rejection {
    pub number: u64,
    pub fault: Fault,
}

impl fmt::Display for Rejection {
    ghost output = { λ r. Some (fault_text r.number r.fault) };

    fn fmt<W: fmt::Write>(&self, f: &mut fmt::Formatter<W>) -> fmt::Result {
        let Rejection { number: k, fault } = *self;
        write!(f, "line {k}: {fault}")
    }
}

/// What is said of line k of a listing, which was not taken.
pub fn fault_record(heap: Global, k: u64, fault: Fault) -> Result<String, AllocError>
    ensures { IfOk result (λ s. string_bytes s ≡ fault_text k fault) }
{
    Rejection { number: k, fault }.to_string(heap)
}
