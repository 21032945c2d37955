//! Paints a sheet whole from its list of shapes: prints a record and the picture in characters and, with a file name,
//! writes a Netpbm frame.
#![tactic(auto)]

mod input;
mod panel;
mod picture;
mod stop;

use cache::store::Cache;
use input::InputLines;
use listing::line::Line;
use painting::whole::paint_whole;
use panel::Panel;
use picture::print_picture;
use plane::planes::PlaneSurface;
use ppm::frame;
use raster::font::Font;
use record::{Record, Rejection};
use shape_list::list::ShapeList;
use shape_list::reading::{start, take};
use std::process::ExitCode;
use std::{env, fs, io};
use stop::Stop;
use surface::byte::ByteSurface;
use surface::surface::Surface;

/// Bytes enough for a sheet of any size on each panel.
const ROOM: usize = 65536;

/// The record of line k, after which the list is as given.
fn record(font: &Font, list: &ShapeList, k: u64, line: Line) -> Record {
    let pixels = match line {
        Line::Shape { shape, .. } => list.covered(font, shape),
        _ => 0,
    };
    Record {
        number: k,
        line,
        pixels,
    }
}

/// Takes in the first line, which begins the list; an input without lines begins as one with an empty line does.
fn read_first(lines: &mut InputLines) -> Result<ShapeList, Stop> {
    let list = match lines.next() {
        Some(line) => start(line?.as_slice()),
        None => start(b""),
    };
    list.map_err(|fault| Stop::Rejected(Rejection { number: 1, fault }))
}

/// Reads the list from standard input, and prints the record of each line that it takes.
fn read_list(rt: &HostRuntime) -> Result<ShapeList, Stop> {
    let font = Font::built_in();
    let mut lines = InputLines::new(rt)?;
    let mut list = read_first(&mut lines)?;
    let (width, height) = list.sides();
    rt.println(record(&font, &list, 1, Line::Sheet { width, height }))?;
    for (k, bytes) in (2..u64::MAX).zip(lines) {
        let line = take(&mut list, bytes?.as_slice()).map_err(|fault| Stop::Rejected(Rejection {
            number: k,
            fault,
        }))?;
        rt.println(record(&font, &list, k, line))?;
    }
    Ok(list)
}

/// The panel and the file name that the arguments give.
fn choices(rt: &HostRuntime) -> Result<(Panel, Option<String>), Stop> {
    let mut words = env::args(rt)?.skip(1).peekable();
    let mut panel = Panel::Byte;
    if words.next_if(|word| word.as_str() == "--panel").is_some() {
        let word = words.next().ok_or(Stop::Usage)?;
        let Ok(chosen) = word.as_str().parse() else {
            return Err(Stop::Panel(word));
        };
        panel = chosen;
    }
    let name = words.next();
    if words.next().is_some() {
        return Err(Stop::Usage);
    }
    Ok((panel, name))
}

/// Paints the list whole on a surface, prints the picture, and answers its frame.
fn paint<S: Surface>(rt: &HostRuntime, list: ShapeList, surface: &mut S) -> Result<Vec<u8>, Stop> {
    let font = Font::built_in();
    paint_whole(&list.scene(&font), surface);
    let (_, height) = list.sides();
    print_picture(rt, height, surface)?;
    Ok(frame(rt.alloc(), surface)?)
}

/// The same on a cache over the surface.
// Not written out in `paint_on`: the check covers a cache over a surface of lent memory only where the surface is a type parameter.
fn paint_cached<S: Surface + Drop>(
    rt: &HostRuntime,
    list: ShapeList,
    surface: S,
) -> Result<Vec<u8>, Stop> {
    paint(rt, list, &mut Cache::new(surface))
}

/// The same on a cache over a cache over the surface.
fn paint_twice_cached<S: Surface + Drop>(
    rt: &HostRuntime,
    list: ShapeList,
    surface: S,
) -> Result<Vec<u8>, Stop> {
    paint_cached(rt, list, Cache::new(surface))
}

/// Paints the list on the chosen panel, over memory that is large enough for each.
// Each arm calls with a surface of its own type: `rt ci` refuses a function that makes a `dyn` value and hands it out, and `paint` is generic over the surface.
fn paint_on(rt: &HostRuntime, list: ShapeList, panel: Panel) -> Result<Vec<u8>, Stop> {
    let (width, height) = list.sides();
    let mut memory = vec![in rt.alloc(); 0u8; ROOM]?;
    match panel {
        Panel::Byte => paint(rt, list, &mut ByteSurface::new(&mut memory, width, height)),
        Panel::Plane => paint(rt, list, &mut PlaneSurface::new(&mut memory, width, height)),
        Panel::CachedByte => paint_cached(rt, list, ByteSurface::new(&mut memory, width, height)),
        Panel::CachedPlane => paint_cached(rt, list, PlaneSurface::new(&mut memory, width, height)),
        Panel::TwiceCachedPlane => paint_twice_cached(
            rt,
            list,
            PlaneSurface::new(&mut memory, width, height),
        ),
    }
}

/// Reads the list, paints it whole, and shows it.
fn run(rt: &HostRuntime) -> Result<(), Stop> {
    let (panel, name) = choices(rt)?;
    let list = read_list(rt)?;
    let bytes = paint_on(rt, list, panel)?;
    if let Some(name) = name {
        fs::write(rt, name.as_str(), bytes.as_slice())?;
    }
    let (number, length) = (list.frame(), bytes.len());
    let (width, height) = list.sides();
    println!(rt; "frame {number}: {width} x {height}, {length} bytes")?;
    Ok(())
}

/// Says why the program stopped: the record's reader where a line was not taken, and else the caller.
fn report(rt: &HostRuntime, stop: &Stop) -> io::Result<()> {
    match stop {
        Stop::Rejected(rejection) => rt.println(rejection),
        _ => rt.eprintln(stop),
    }
}

fn main(rt: HostRuntime) -> ExitCode {
    let Err(stop) = run(&rt) else {
        return ExitCode::SUCCESS;
    };
    let _ = report(&rt, &stop);
    ExitCode::FAILURE
}
