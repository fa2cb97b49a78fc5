//! Lists that grow by what may be there.
ghost use Rattle.std.specs.Prelude.{◌≡◌, ◌++◌, OnOk};
ghost use Rattle.st_marks.specs.Listings.{one_or_none};

use st_ids::List;
use std::alloc::AllocError;

/// Puts an item behind others, if there is one.
pub fn push_if_some<T: Drop>(list: &mut List<T>, item: Option<T>) -> Result<(), AllocError>
    ensures { OnOk result (list.new ≡ list.old ++ one_or_none item) }
{
    match item {
        None => Ok(()),
        Some(item) => {
            list.push(item)?;
            Ok(())
        }
    }
}
