ghost use Rattle.list_book.specs.Views.{book};
ghost use Rattle.shape_list.specs.Reading.{Applied, Started, Taken};

use crate::fault::Fault;
use list_book::list::ShapeList;
use listing::line::Line;
use listing::parse::parse;

/// The list that the first line begins, which has to be a sheet line.
pub fn start(bytes: &[u8]) -> Result<ShapeList, Fault>
    ensures { Started bytes.now result }
{
    let Line::Sheet { width, height } = parse(bytes).ok_or(Fault::Form)? else {
        return Err(Fault::Form);
    };
    Ok(ShapeList::new(width, height)?)
}

/// Makes the call that a line after the first stands for. A sheet line comes first only.
fn apply(list: &mut ShapeList, line: Line) -> Result<(), Fault>
    ensures { Applied (book list.old) line result (book list.new) }
{
    match line {
        Line::Sheet { .. } => Err(Fault::Form),
        Line::Shape { number, shape, ink } => Ok(list.place(number, shape, ink)?),
        Line::Span {
            number,
            shape,
            from,
            to,
            ink,
        } => Ok(list.span(number, shape, from, to, ink)?),
        Line::Frame { frame } => {
            list.turn(frame);
            Ok(())
        }
    }
}

/// Takes in a line after the first, and answers it.
pub fn take(list: &mut ShapeList, bytes: &[u8]) -> Result<Line, Fault>
    ensures { Taken (book list.old) bytes.now result (book list.new) }
{
    let line = parse(bytes).ok_or(Fault::Form)?;
    apply(list, line)?;
    Ok(line)
}
