// The levels of panel's text.

ghost use Rattle.std.specs.Prelude.{◌≡◌, length};
ghost use Rattle.spec_panel.specs.Panel.{levels_of};
ghost use Rattle.panel_text.specs.Levels.{levels_if_read};

use crate::panel_scan::Numbers;

// The numbers that are left fill the area with levels: none of them is malformed or beyond 16 bits, and nothing follows them.
pub fn read_levels(numbers: &mut Numbers, levels: &mut [i16]) -> Option<()>
    ensures { levels_of (length levels.old) numbers.old ≡ levels_if_read result levels.new }
{
    for level in levels.iter_mut() {
        *level = i16::try_from(numbers.next()??).ok()?;
    }
    numbers.next().is_none().then_some(())
}
