// How far the anchor moves a text down (SPECIFICATION, Anchors).
#![tactic(auto)]

ghost use Rattle.std.specs.Prelude.{◌≡◌, ◌*◌, ◌≤◌, pos};
ghost use Rattle.definitions.specs.VerticalOffset.{vertical_offset};

use types::style::VerticalPosition;

// The division rounds towards zero. The bounds are of plain numbers: a type that holds one would ask callers for more.
pub fn compute_vertical_offset(
    vertical_pos: VerticalPosition,
    ascent: i8,
    descent: i8,
    newline_count: u32,
    line_height: u32,
) -> i32
    requires { (newline_count ≤ 4096) × (line_height ≤ 65535) }
    ensures { result ≡ vertical_offset vertical_pos (pos (newline_count * line_height)) ascent descent }
{
    let ascent = i32::from(ascent);
    let descent = i32::from(descent);
    let total_newline_advance = (newline_count * line_height) as i32;
    match vertical_pos {
        VerticalPosition::Baseline => 0,
        VerticalPosition::Top => ascent + 1,
        VerticalPosition::Center => {
            (total_newline_advance + ascent - descent + 1) / 2 + descent - total_newline_advance
        }
        VerticalPosition::Bottom => descent - total_newline_advance,
    }
}
