//! The retry key of a delivery.

ghost use Rattle.std.specs.Prelude.{◌≡◌, option_copied};
ghost use Rattle.reg_service.specs.Deliveries.{key_of};

use reg_core::{Delivery, Key};

/// The key of a write, or `None` if it has no key or the delivery is a read.
pub(crate) fn retry_key<'d, 'a>(delivery: &'d Delivery<'a>) -> Option<&'d Key<'a>>
    ensures { option_copied result ≡ key_of delivery.now }
{
    if delivery.command.is_write() {
        delivery.key.as_ref()
    } else {
        None
    }
}
