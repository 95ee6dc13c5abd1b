//! The area that a service serves, named by a type: so it is known of a service behind a lock too.

ghost use Rattle.std.specs.Prelude.{[]};

use std::marker::Brand;

/// Names an area. A caller picks the one that it works with, and passes the type to what works with that area.
pub trait AreaName {
    ghost use Rattle.atomic_table.specs.Seated.{TableId};

    ghost area: { TableId };
}

impl AreaName for Brand {
    ghost area = { record { words = 0; slots = 0; views_name = 0; atom = 0; block = 0; offset = 0; slot_names = [] } };
}
