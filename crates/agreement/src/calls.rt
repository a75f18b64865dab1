// What a kind of calls, plain or aligned, has to keep for its drawing and measuring to agree.
ghost use Rattle.std.specs.Prelude.{◌≡◌, List, ℕ};
ghost use Rattle.definitions.specs.Vocabulary.{BoundingBox, FontColor, HorizontalAlignment};
ghost use Rattle.definitions.specs.Refusals.{Outcome, outcome};
ghost use Rattle.definitions.specs.Font.{Font, u8g2};
ghost use Rattle.definitions.specs.Calls.{Request, request};
ghost use Rattle.definitions.specs.Sums.{sums};
ghost use Rattle.definitions.specs.Agreement.{Ground, on, after, MeasuredAsDrawn};
ghost use Rattle.definitions.specs.Unpacking.{Unpackable, unpacked_ground, DrawnAlike};
ghost use Rattle.agreement.specs.Calls.{results_of};

use types::framebuffer::Framebuffer;
use types::results::Report;
use types::style::{FontStyle, Placement, VerticalPosition};

// Calls that draw a text and measure it. They answer as the definitions say, and by these what is measured is what is drawn.
pub trait Calls {
    // What a call that succeeds answers with.
    type Answer: Copy;

    // The box in it.
    ghost box_in: { Self.Answer → BoundingBox };

    // The alignment that they ask for.
    ghost align: { Self → HorizontalAlignment };

    // What drawing answers by the definitions. What it leaves is `after`, whichever calls these are.
    ghost draws: { Font → Request → FontColor → Ground → Outcome Self.Answer };

    // What measuring answers.
    ghost measures: { Font → Request → Outcome Self.Answer };

    fn draw(
        &self,
        font: &[u8],
        text: &[u8],
        placement: Placement,
        style: FontStyle,
        framebuffer: Framebuffer,
        buffer: &mut [u8],
    ) -> Report<Self::Answer>
        ensures answered { outcome result.result ≡ draws (u8g2 font.now)
            (request text.now placement style.vertical_pos (align self.now)) style.color (on framebuffer buffer.old) }
        ensures shown { buffer.new ≡ after (u8g2 font.now)
            (request text.now placement style.vertical_pos (align self.now)) style.color (on framebuffer buffer.old) }
        ensures summed { result.steps ≡ sums (u8g2 font.now) text.now (draws (u8g2 font.now)
            (request text.now placement style.vertical_pos (align self.now)) style.color (on framebuffer buffer.old)) };

    fn measure(
        &self,
        font: &[u8],
        text: &[u8],
        placement: Placement,
        vertical_pos: VerticalPosition,
    ) -> Report<Self::Answer>
        ensures { outcome result.result ≡ measures (u8g2 font.now)
            (request text.now placement vertical_pos (align self.now)) };

    // What each kind must prove: for its drawing and measuring to agree ..
    ghost agrees: { (first_font second_font : List ℕ) (r : Request) (color : FontColor) (p q : Ground)
        → MeasuredAsDrawn box_in first_font second_font r p q
        (results_of draws measures (u8g2 first_font) (u8g2 second_font) r color p q) };

    // .. and for drawing to leave the same pixels in every format.
    ghost unpacks: { (font : Font) (r : Request) (color : FontColor) (p : Ground) → Unpackable color p
        → DrawnAlike p (draws font r color p) (after font r color p)
        (draws font r color (unpacked_ground p)) (after font r color (unpacked_ground p)) };
}
