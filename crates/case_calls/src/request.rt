// The call that a case asks for, made; its answer, printed.
use crate::case::{Call, Case, Drawing};
use cases::framebuffers;
use cases::header::Header;
use font_reader::new_from_raw_data;
use measuring::font_bounding_box::get_font_bounding_box;
use measuring::rendered_dimensions::get_rendered_dimensions;
use measuring::rendered_dimensions_aligned::get_rendered_dimensions_aligned;
use printing::{Answer, Area, BoxOrNone, Dimensions};
use redraw::reading::redraw;
use renderer::render::render;
use renderer::render_aligned::render_aligned;
use std::fmt::Display;
use types::results::Report;

// How many bytes the numbers of a case take.
pub const SIZE: usize = 64;

// The answer of a call on a text, and the sums of its lookups' steps where the case wants them.
fn print_report<R: Print, T, D: Display + Drop, F: Fn(T) -> D>(
    rt: &R,
    sums: bool,
    report: Report<T>,
    shown: F,
)
    requires { F.IsAlwaysCallable shown }
{
    let Report { result, steps } = report;
    let _ = print!(rt; "{}", Answer(result.map(shown)));
    if sums {
        let _ = print!(rt; " records {} entries {}", steps.records, steps.entries);
    }
}

// Draws on the framebuffer, which first is filled as the case asks for, and prints the answer and the framebuffer.
fn answer_drawing<R: Print>(
    rt: &R,
    case: Case,
    drawing: Drawing,
    font: &[u8],
    text: &[u8],
    buffer: &mut [u8],
) {
    let Case {
        placement,
        style,
        framebuffer,
        sums,
        ..
    } = case;
    framebuffers::fill(buffer, case.fill);
    match drawing {
        Drawing::Plain => {
            let report = render(font, text, placement, style, framebuffer, buffer);
            print_report(rt, sums, report, Dimensions);
        }
        Drawing::Aligned => {
            let align = case.horizontal_align;
            let report = render_aligned(font, text, placement, style, align, framebuffer, buffer);
            print_report(rt, sums, report, BoxOrNone);
        }
        Drawing::Redraw => {
            let (old_text, new_text) = text.split_at(case.old_len.min(text.len()));
            let report = redraw(font, old_text, new_text, case.place(), buffer);
            print_report(rt, sums, report, Dimensions);
        }
    }
    framebuffers::print(rt, buffer, case.fill, framebuffer);
}

// Makes the case's call, if it draws on as much of the buffer as the case asks for, and prints its answer.
pub fn answer<R: Print>(rt: &R, case: Case, font: &[u8], text: &[u8], buffer: &mut [u8]) {
    let Case {
        placement,
        sums,
        ..
    } = case;
    let anchor = case.style.vertical_pos;
    match case.call {
        Call::Open => {
            let _ = print!(rt; "{}", Answer(new_from_raw_data(font).map(Header)));
        }
        Call::FontBox => {
            let _ = print!(rt; "{}", Answer(get_font_bounding_box(font, anchor).map(Area)));
        }
        Call::Measure => {
            let report = get_rendered_dimensions(font, text, placement, anchor);
            print_report(rt, sums, report, Dimensions);
        }
        Call::MeasureAligned => {
            let align = case.horizontal_align;
            let report = get_rendered_dimensions_aligned(font, text, placement, anchor, align);
            print_report(rt, sums, report, BoxOrNone);
        }
        Call::Draw(drawing) => match buffer.get_mut(..case.len) {
            Some(part) => answer_drawing(rt, case, drawing, font, text, part),
            None => {
                let _ = print!(rt; "no room for the framebuffer");
            }
        },
    }
}
