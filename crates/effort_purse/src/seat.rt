//! A thread's right to draw from a shared purse.

ghost use Rattle.std.specs.Prelude.{◌≡◌, ◌||◌, []};

use crate::view::View;

/// The right to draw from one shared purse, with a number of shares of it. `SharedPurse::new` gives the first.
#[derive(Drop)]
pub struct Seat {
    pub(crate) inner: atomic_table::Seat<u8, View>,
    pub(crate) spent: bool,
    pub(crate) no_more: bool,
    pub(crate) stop: bool,
    /// A seat takes no slot of the table.
    pub ghost bare: { inner.me.1 ≡ [] },
    /// The flags are what the view says.
    pub ghost spent_is: { inner.me.0.tickets.done ≡ spent },
    pub ghost no_more_is: { inner.me.0.bounds.done ≡ no_more },
    pub ghost stop_is: { (inner.me.0.raised || inner.me.0.saw) ≡ stop },
}
