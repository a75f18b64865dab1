// A reading drawn alone on the ground.
ghost use Rattle.std.specs.Prelude.{◌≡◌, length};
ghost use Rattle.redraw_checks.specs.Drawing.{asked, ground_of};
ghost use Rattle.redraw.specs.Redraw.{reading_on};

use renderer::render_aligned::render_aligned;
use types::place::Place;
use types::style::Placement;

// Draws the text alone on the ground, into `alone`: whole, or not at all.
pub fn draw_alone(font: &[u8], text: &[u8], place: Place, ground: &[u8], alone: &mut [u8])
    requires { length ground.now ≡ length alone.old }
    ensures { alone.new ≡ reading_on font.now (asked place text.now)
        (ground_of place ground.now) }
{
    alone.copy_from_slice(ground);
    let placement = Placement {
        position: place.position,
        line_height: place.line_height,
        ignore_unknown_chars: false,
    };
    let drawn = render_aligned(
        font,
        text,
        placement,
        place.style,
        place.horizontal_align,
        place.framebuffer,
        alone,
    );
    if drawn.result.is_err() {
        alone.copy_from_slice(ground);
    }
}
