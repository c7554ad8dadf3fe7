// The lines of the list, by number.

pub const NEW: usize = 0;

pub const GROUP: usize = 1;

pub const COUNT: usize = 2;

// The names in this order, as they begin a line: 16 columns each.
pub const NAMES: [u8; 16 * COUNT] = *b"\
    new             \
    group           \
";
