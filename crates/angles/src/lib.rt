// The text of an angle, as the gauge shows it: "-12.5", "+0.3", "0.0".
#![tactic(auto)]

ghost use Rattle.std.specs.Prelude.{◌≡◌, ◌≤◌, [], pos, negsuc, length, ◌≤ℤ◌};
ghost use Rattle.angles.specs.AngleText.{sign_then, angle_text};

use numbers::text::Text;

// The longest text: a sign, two digits, the point and a digit.
pub const ANGLE_ROOM: usize = 5;

fn sign_of(tenths: i32) -> Text<ANGLE_ROOM>
    ensures sign { result ≡ sign_then tenths [] }
    ensures few { length result ≤ 1 }
{
    let mut text = Text::new();
    if tenths < 0 {
        text.push(b'-');
    } else if 0 < tenths {
        text.push(b'+');
    }
    text
}

// The text of an angle below 100 degrees.
#[tactic(auto, using(crate::proofs::AngleLaws::angle_pieces))]
pub fn angle_text(tenths: i32) -> Text<ANGLE_ROOM>
    requires { (negsuc 998 ≤ℤ tenths) × (tenths ≤ℤ pos 999) }
    ensures { result ≡ angle_text tenths }
{
    let n = tenths.unsigned_abs();
    let mut text = sign_of(tenths);
    text.push_digits(n / 10);
    text.push(b'.');
    text.push_digits(n % 10);
    text
}
