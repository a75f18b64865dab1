// The step of the gauge, watched: each reading is drawn over the one before, and compared with the reading drawn alone.
ghost use Rattle.std.specs.Prelude.{◌≡◌, length, Some};
ghost use Rattle.integers.specs.Integers.{pick};
ghost use Rattle.definitions.specs.Refusals.{outcome};
ghost use Rattle.definitions.specs.Framebuffer.{unpacked, BufferFits};
ghost use Rattle.buffers.specs.Differences.{differences};
ghost use Rattle.redraw.specs.Redraw.{redrawn, taken};
ghost use Rattle.redraw_checks.specs.Drawing.{ground_of};
ghost use Rattle.faulty_step.specs.Fault.{step_buffer};
ghost use Rattle.sheet_ground.specs.Readings.{reading};
ghost use Rattle.readings.specs.Sheet.{shown_text, screen_of, wanted, apart, Comparable, Finds};

use crate::check::draw_alone;
use crate::values::Found;
use angles::ANGLE_ROOM;
use buffers::count_differences;
use faulty_step::{Trial, redraw_on};
use numbers::text::Text;
use pixels::unpack::unpack;
use redraw::reading::is_taken;
use sheet_ground::texts::reading_text;
use types::error::Error;
use types::framebuffer::{Framebuffer, PixelFormat};
use types::geometry::RenderedDimensions;
use types::place::Place;

// The text that stands on the screen: none before a reading is taken.
fn shown_text(old: Option<usize>) -> Text<ANGLE_ROOM>
    ensures { result ≡ shown_text old }
{
    old.map_or(Text::new(), reading_text)
}

// Draws reading k over the reading `old`.
fn draw_over(
    font: &[u8],
    old: Option<usize>,
    k: usize,
    trial: Trial,
    screen: &mut [u8],
) -> Result<RenderedDimensions, Error>
    ensures answered { outcome result ≡ redrawn font.now (shown_text old) (reading trial.place k)
        trial.place.background (ground_of trial.place screen.old) }
    ensures shown { screen.new ≡ step_buffer trial.narrow font.now (shown_text old)
        (reading trial.place k) trial.place.background (ground_of trial.place screen.old) }
{
    let old_text = shown_text(old);
    let new_text = reading_text(k);
    redraw_on(
        font,
        old_text.as_bytes(),
        new_text.as_bytes(),
        trial,
        screen,
    )
}

// How many pixels of two buffers differ, unpacked. Not inlined: a step in bytes takes no stack for it.
#[inline(never)]
fn unpacked_differing(framebuffer: Framebuffer, a: &[u8], b: &[u8]) -> usize
    requires { BufferFits (length a.now) framebuffer × (length b.now ≡ length a.now) }
    ensures { result ≡ differences (unpacked framebuffer a.now) (unpacked framebuffer b.now) }
{
    let n = framebuffer.height * framebuffer.width;
    let mut first = [0u8; 65536];
    let mut second = [0u8; 65536];
    unpack(framebuffer, a, &mut first[..n]);
    unpack(framebuffer, b, &mut second[..n]);
    count_differences(&first[..n], &second[..n])
}

// How many pixels of two buffers of one framebuffer differ. In bytes they are compared as they are.
fn differing(framebuffer: Framebuffer, a: &[u8], b: &[u8]) -> usize
    requires { Comparable framebuffer.format (length a.now) framebuffer × (length b.now ≡ length a.now) }
    ensures { result ≡ apart framebuffer a.now b.now }
{
    match framebuffer.format {
        PixelFormat::Bytes => count_differences(a, b),
        PixelFormat::Packed => unpacked_differing(framebuffer, a, b),
    }
}

// How many pixels of the screen are not those of reading k drawn alone on the ground, whole or not at all.
fn compare(
    font: &[u8],
    k: usize,
    place: Place,
    ground: &[u8],
    screen: &[u8],
    alone: &mut [u8],
) -> usize
    requires { Comparable place.framebuffer.format (length screen.now) place.framebuffer
        × (length ground.now ≡ length alone.old) × (length screen.now ≡ length alone.old) }
    ensures { result ≡ apart place.framebuffer screen.now (wanted font.now place ground.now k) }
{
    let text = reading_text(k);
    draw_alone(font, text.as_bytes(), place, ground, alone);
    differing(place.framebuffer, screen, alone)
}

// The reading that the next step is to clear.
fn next_old(
    answer: Result<RenderedDimensions, Error>,
    k: usize,
    old: Option<usize>,
) -> Option<usize>
    ensures { result ≡ pick (taken (outcome answer)) (Some k) old }
{
    if is_taken(answer) { Some(k) } else { old }
}

// The step, watched. Ground, screen and alone are three slices here and in sheet_program: of a struct of them each function would
// have to promise besides that the references in it stay the same.
pub fn step(
    font: &[u8],
    old: Option<usize>,
    k: usize,
    trial: Trial,
    ground: &[u8],
    screen: &mut [u8],
    alone: &mut [u8],
) -> Found
    requires { Comparable trial.place.framebuffer.format (length screen.old) trial.place.framebuffer
        × (length ground.now ≡ length alone.old) × (length screen.old ≡ length alone.old) }
    ensures { Finds trial.narrow font.now trial.place ground.now
        (screen_of old screen.old) k result screen.new }
{
    let place = trial.place;
    let answer = draw_over(font, old, k, trial, screen);
    let next = next_old(answer, k, old);
    let differing = compare(font, k, place, ground, screen, alone);
    Found {
        answer,
        old: next,
        differing,
    }
}
