// The calls for programs in C or Rust, which link the static library (`rt lib`). Numbers
// and slices go in; a slice is a pointer and a length. Each call answers with a status: 0 for
// success, the number of a refusal, 255 where a code has no meaning or `out` is too short. The
// answer's values are stored in `out`: Replies.antt of c_values says which. bindings/c/papayahelm.h
// declares the calls. Six of them take numbers one by one, and not in structs, since the C interface has them so.
#![tactic(auto)]

ghost use Rattle.std.specs.Prelude.{◌≡◌, length};
ghost use Rattle.definitions.specs.Font.{u8g2};
ghost use Rattle.definitions.specs.Calls.{open_font, font_bounding_box, request, plain, measure, measure_aligned};
ghost use Rattle.definitions.specs.Calls.{draw, draw_buffer, draw_aligned};
ghost use Rattle.redraw_checks.specs.Drawing.{asked, ground_of};
ghost use Rattle.redraw.specs.Redraw.{redrawn, redrawn_buffer};
ghost use Rattle.c_codes.specs.Codes.{meaning_of, ink_of, placed_by, framebuffer_of};
ghost use Rattle.c_values.specs.Replies.{Answers, drawn_by, box_reply, text_reply, aligned_reply, with_sums, without_steps};
ghost use Rattle.c_values.specs.Headers.{Opens};
ghost use Rattle.c_api.specs.Places.{place_by};

use c_codes::known_codes;
use c_values::header::store_header;
use c_values::reply::{Reply, store};
use font_reader::new_from_raw_data;
use measuring::font_bounding_box::get_font_bounding_box;
use measuring::rendered_dimensions::get_rendered_dimensions;
use measuring::rendered_dimensions_aligned::get_rendered_dimensions_aligned;
use redraw::reading::redraw;
use renderer::render::render;
use renderer::render_aligned::render_aligned;
use types::geometry::Point;
use types::place::Place;
use types::steps::LookupSteps;
use utils::error::error_number;

const BAD_ARGUMENT: u32 = 255;

// The header's values and the default line height.
#[unsafe(no_mangle)]
pub extern "C" fn papayahelm_open(font: &[u8], out: &mut [i64]) -> u32
    ensures { Opens (length out.old) (open_font font.now) result out.old out.new }
{
    if out.len() < 21 {
        return BAD_ARGUMENT;
    }
    match new_from_raw_data(font) {
        Err(error) => error_number(error),
        Ok(head) => {
            store_header(out, head);
            0
        }
    }
}

// The bounding box of all of the font's glyphs.
#[unsafe(no_mangle)]
pub extern "C" fn papayahelm_font_box(font: &[u8], anchor: u32, out: &mut [i64]) -> u32
    ensures { Answers (meaning_of anchor 0 0 0 0 (length out.old))
        (λ m. without_steps (box_reply (font_bounding_box font.now m.vertical_pos))) result out.old
        out.new }
{
    let Some(m) = known_codes(anchor, 0, 0, 0, 0, out.len()) else {
        return BAD_ARGUMENT;
    };
    let result = get_font_bounding_box(font, m.vertical_pos);
    store(out, Reply::of(result), LookupSteps::default())
}

// The dimensions that a text has when it is drawn.
#[unsafe(no_mangle)]
pub extern "C" fn papayahelm_measure(
    font: &[u8],
    text: &[u8],
    x: i32,
    y: i32,
    anchor: u32,
    line_height: u32,
    skip: u32,
    out: &mut [i64],
) -> u32
    ensures { Answers (meaning_of anchor 0 skip 0 0 (length out.old))
        (λ m. with_sums font.now text.now text_reply (measure (u8g2 font.now)
        (plain text.now (placed_by m x y line_height) m.vertical_pos))) result out.old
        out.new }
{
    let Some(m) = known_codes(anchor, 0, skip, 0, 0, out.len()) else {
        return BAD_ARGUMENT;
    };
    let placement = m.placement(x, y, line_height);
    let report = get_rendered_dimensions(font, text, placement, m.vertical_pos);
    store(out, Reply::of(report.result), report.steps)
}

// The bounding box of a text whose lines are aligned.
#[unsafe(no_mangle)]
pub extern "C" fn papayahelm_measure_aligned(
    font: &[u8],
    text: &[u8],
    x: i32,
    y: i32,
    anchor: u32,
    align: u32,
    line_height: u32,
    skip: u32,
    out: &mut [i64],
) -> u32
    ensures { Answers (meaning_of anchor align skip 0 0 (length out.old))
        (λ m. with_sums font.now text.now aligned_reply (measure_aligned (u8g2 font.now)
        (request text.now (placed_by m x y line_height) m.vertical_pos m.horizontal_align))) result
        out.old out.new }
{
    let Some(m) = known_codes(anchor, align, skip, 0, 0, out.len()) else {
        return BAD_ARGUMENT;
    };
    let placement = m.placement(x, y, line_height);
    let report = get_rendered_dimensions_aligned(
        font,
        text,
        placement,
        m.vertical_pos,
        m.horizontal_align,
    );
    store(out, Reply::of(report.result), report.steps)
}

// Draws a text into the buffer.
#[unsafe(no_mangle)]
pub extern "C" fn papayahelm_draw(
    font: &[u8],
    text: &[u8],
    x: i32,
    y: i32,
    anchor: u32,
    line_height: u32,
    skip: u32,
    background: u32,
    fg: u8,
    bg: u8,
    format: u32,
    width: usize,
    height: usize,
    buffer: &mut [u8],
    out: &mut [i64],
) -> u32
    ensures answered { Answers (meaning_of anchor 0 skip background format (length out.old))
        (λ m. with_sums font.now text.now text_reply (draw (u8g2 font.now)
        (plain text.now (placed_by m x y line_height) m.vertical_pos) (ink_of m.background fg bg)
        (framebuffer_of m width height) buffer.old)) result out.old out.new }
    ensures shown { buffer.new ≡ drawn_by (meaning_of anchor 0 skip background format (length out.old))
        (λ m. draw_buffer (u8g2 font.now) (plain text.now (placed_by m x y line_height)
        m.vertical_pos) (ink_of m.background fg bg) (framebuffer_of m width height) buffer.old) buffer.old }
{
    let Some(m) = known_codes(anchor, 0, skip, background, format, out.len()) else {
        return BAD_ARGUMENT;
    };
    let style = m.style(fg, bg);
    let placement = m.placement(x, y, line_height);
    let framebuffer = m.framebuffer(width, height);
    let report = render(font, text, placement, style, framebuffer, buffer);
    store(out, Reply::of(report.result), report.steps)
}

// Draws a text whose lines are aligned.
#[unsafe(no_mangle)]
pub extern "C" fn papayahelm_draw_aligned(
    font: &[u8],
    text: &[u8],
    x: i32,
    y: i32,
    anchor: u32,
    align: u32,
    line_height: u32,
    skip: u32,
    background: u32,
    fg: u8,
    bg: u8,
    format: u32,
    width: usize,
    height: usize,
    buffer: &mut [u8],
    out: &mut [i64],
) -> u32
    ensures answered { Answers (meaning_of anchor align skip background format (length out.old))
        (λ m. with_sums font.now text.now aligned_reply (draw_aligned (u8g2 font.now)
        (request text.now (placed_by m x y line_height) m.vertical_pos m.horizontal_align)
        (ink_of m.background fg bg) (framebuffer_of m width height) buffer.old)) result out.old out.new }
    ensures shown { buffer.new ≡ drawn_by (meaning_of anchor align skip background format (length out.old))
        (λ m. draw_buffer (u8g2 font.now) (request text.now (placed_by m x y line_height)
        m.vertical_pos m.horizontal_align) (ink_of m.background fg bg) (framebuffer_of m width height)
        buffer.old) buffer.old }
{
    let Some(m) = known_codes(anchor, align, skip, background, format, out.len()) else {
        return BAD_ARGUMENT;
    };
    let style = m.style(fg, bg);
    let placement = m.placement(x, y, line_height);
    let framebuffer = m.framebuffer(width, height);
    let report = render_aligned(
        font,
        text,
        placement,
        style,
        m.horizontal_align,
        framebuffer,
        buffer,
    );
    store(out, Reply::of(report.result), report.steps)
}

// Clears the old text's reading with one colour and draws the new text's, whole or not at all.
#[unsafe(no_mangle)]
pub extern "C" fn papayahelm_redraw(
    font: &[u8],
    old_text: &[u8],
    new_text: &[u8],
    x: i32,
    y: i32,
    anchor: u32,
    align: u32,
    line_height: u32,
    background: u32,
    fg: u8,
    bg: u8,
    clear_color: u8,
    format: u32,
    width: usize,
    height: usize,
    buffer: &mut [u8],
    out: &mut [i64],
) -> u32
    ensures answered { Answers (meaning_of anchor align 0 background format (length out.old))
        (λ m. with_sums font.now new_text.now text_reply (redrawn font.now
        old_text.now
        (asked (place_by m x y line_height fg bg clear_color (framebuffer_of m width height)) new_text.now) clear_color
        (ground_of (place_by m x y line_height fg bg clear_color (framebuffer_of m width height)) buffer.old))) result
        out.old out.new }
    ensures shown { buffer.new ≡ drawn_by (meaning_of anchor align 0 background format (length out.old))
        (λ m. redrawn_buffer font.now old_text.now
        (asked (place_by m x y line_height fg bg clear_color (framebuffer_of m width height)) new_text.now) clear_color
        (ground_of (place_by m x y line_height fg bg clear_color (framebuffer_of m width height)) buffer.old))
        buffer.old }
{
    let Some(m) = known_codes(anchor, align, 0, background, format, out.len()) else {
        return BAD_ARGUMENT;
    };
    let style = m.style(fg, bg);
    let place = Place {
        position: Point { x, y },
        style,
        horizontal_align: m.horizontal_align,
        line_height,
        background: clear_color,
        framebuffer: m.framebuffer(width, height),
    };
    let report = redraw(font, old_text, new_text, place, buffer);
    store(out, Reply::of(report.result), report.steps)
}
