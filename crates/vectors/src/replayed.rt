// Compares the sheet of a stored source with the stored one: j/NNN is the jet list, o/NNN the sheet.
ghost use Rattle.std.specs.Prelude.{◌<◌};

use crate::stored;
use std::rt::Files;

// Whether the sheet is this text.
fn agrees(source: &[u8], jets: &[u8], text: &[u8]) -> bool {
    let mut out = [0u8; print::LISTING];
    let n = sheets::fill_sheet(source, jets, &mut out);
    &out[..n] == text
}

// Replays the sheet of the case of this number.
pub(crate) fn replay<R: Files>(rt: &R, source: &[u8], number: u16) -> bool
    requires { number < 1000 }
{
    let mut jets = [0u8; stored::LONGEST];
    let Ok(n) = stored::load(rt, b'j', number, &mut jets) else {
        return false;
    };
    let mut text = [0u8; stored::LONGEST];
    let Ok(m) = stored::load(rt, b'o', number, &mut text) else {
        return false;
    };
    agrees(source, &jets[..n], &text[..m])
}
