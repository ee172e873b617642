ghost use Rattle.usage.specs.Posts.{PostedBoth, MovedBack};

use stamps::{Tray, TrayFault};

/// Adds two elements, or none where there is no room for both.
pub fn post_both<T: Copy>(tray: &mut Tray<'_, T>, first: T, second: T) -> Result<(), TrayFault>
    ensures { PostedBoth tray.old first second result tray.new }
{
    if tray.free() < 2 {
        return Err(TrayFault::Full);
    }
    tray.push(first)?;
    tray.push(second)
}

/// Adds two elements the other way round: one more layer, which only hands the tray on.
pub fn post_reversed<T: Copy>(tray: &mut Tray<'_, T>, first: T, second: T) -> Result<(), TrayFault>
    ensures { PostedBoth tray.old second first result tray.new }
{
    post_both(tray, second, first)
}

/// Takes the element at the place out and adds it at the end again.
pub fn move_back<T: Copy>(tray: &mut Tray<'_, T>, place: usize) -> Result<(), TrayFault>
    ensures { MovedBack tray.old place result tray.new }
{
    let element = tray.take_out(place)?;
    tray.push(element)
}
